ghost use Rattle.std.specs.Prelude.{◌≡◌, ◌+◌, ◌*◌, ◌≤◌, length, drop, MatchResult, IfOk, Ok, Err};
ghost use Rattle.trialing.specs.Trial.{op_of, op_number, op_at, number_at, long_at, trial_at, told, size_of, loaded, most_words};

// Which call a trial is of.
#[derive(Clone, Copy)]
pub enum Op {
    Read,
    Judge,
    Fresh,
    Turn,
    Standing,
}

// Why no trial stands where one was looked for: the input ends in it or before it, or its op or its size is none.
#[derive(Clone, Copy, PartialEq, Eq)]
pub enum Ending {
    Cut,
    Stop,
}

// A whole trial: its op, its file, the bytes of its words, and its process number.
#[derive(Clone, Copy)]
pub struct Trial<'a> {
    pub op: Op,
    pub file: &'a [u8],
    pub words: &'a [u8],
    pub process: usize,
    ghost few_words: { length words.now ≤ 2 * most_words },
}

impl TryFrom<u8> for Op {
    type Error = Ending;

    ghost try_from_gives = { λ byte r. r ≡ op_of byte };

    fn try_from(byte: u8) -> Result<Op, Ending> {
        match byte {
            1 => Ok(Op::Read),
            2 => Ok(Op::Judge),
            3 => Ok(Op::Fresh),
            4 => Ok(Op::Turn),
            5 => Ok(Op::Standing),
            _ => Err(Ending::Stop),
        }
    }
}

impl From<Op> for usize {
    ghost from_gives = { λ op n. n ≡ op_number op };

    fn from(op: Op) -> usize {
        match op {
            Op::Read => 1,
            Op::Judge => 2,
            Op::Fresh => 3,
            Op::Turn => 4,
            Op::Standing => 5,
        }
    }
}

// A number of 16 bits, low byte first, that is at most so much, and the rest.
fn number(input: &[u8], most: usize) -> Result<(usize, &[u8]), Ending>
    ensures number { MatchResult result (λ p. number_at input.now 0 most ≡ Ok p.0) (λ e. number_at input.now 0 most ≡ Err e) }
    ensures most { IfOk result (λ p. p.0 ≤ most) }
    ensures rest { IfOk result (λ p. (p.1.now ≡ drop 2 input.now) × (2 ≤ length input.now)) }
{
    let (bytes, rest) = input.split_first_chunk().ok_or(Ending::Cut)?;
    let number = usize::from(u16::from_le_bytes(*bytes));
    if most < number {
        return Err(Ending::Stop);
    }
    Ok((number, rest))
}

// A number of 32 bits, low byte first, and the rest. Apart from `number`: from_le_bytes is each integer type's own, and of no trait.
fn long_number(input: &[u8]) -> Result<(usize, &[u8]), Ending>
    ensures number { MatchResult result (λ p. long_at input.now 0 ≡ Ok p.0) (λ e. long_at input.now 0 ≡ Err e) }
    ensures rest { IfOk result (λ p. (p.1.now ≡ drop 4 input.now) × (4 ≤ length input.now)) }
{
    let (bytes, rest) = input.split_first_chunk().ok_or(Ending::Cut)?;
    // The language has no From<u32> for usize.
    Ok((u32::from_le_bytes(*bytes) as usize, rest))
}

impl<'a> Trial<'a> {
    // Bytes of file.
    pub const FILE: usize = 8192;

    pub const WORDS: usize = 256;

    // The trial at the start of the input, and the rest.
    pub(crate) fn read(input: &'a [u8]) -> Result<(Trial<'a>, &'a [u8]), Ending>
        ensures trial { MatchResult result (λ p. trial_at input.now ≡ Ok (told p.0.op p.0.file.now p.0.words.now p.0.process)) (λ e. trial_at input.now ≡ Err e) }
        ensures rest { IfOk result (λ p. p.1.now ≡ drop (size_of p.0.file.now p.0.words.now) input.now) }
        ensures whole { IfOk result (λ p. size_of p.0.file.now p.0.words.now ≤ length input.now) }
    {
        let (&op, rest) = input.split_first().ok_or(Ending::Cut)?;
        let op = Op::try_from(op)?;
        let (file, rest) = number(rest, Trial::FILE)?;
        let (file, rest) = rest.split_at_checked(file).ok_or(Ending::Cut)?;
        let (words, rest) = number(rest, Trial::WORDS)?;
        let (words, rest) = rest.split_at_checked(2 * words).ok_or(Ending::Cut)?;
        let (process, rest) = long_number(rest)?;
        let trial = Trial {
            op,
            file,
            words,
            process,
        };
        Ok((trial, rest))
    }
}

// The words that stand in the bytes.
pub(crate) fn load(bytes: &[u8], table: &mut [u16])
    requires { 2 * length table.old ≤ length bytes.now }
    ensures { table.new ≡ loaded bytes.now table.old (length table.old) }
{
    // No zip with the pairs: the proof then has no name for the table so far.
    for (i, word) in table.iter_mut().enumerate() {
        *word = u16::from_le_bytes([bytes[2 * i], bytes[2 * i + 1]]);
    }
}
