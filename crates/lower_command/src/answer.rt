//! What a run answers.
ghost use Rattle.std.specs.Prelude.{◌≡◌};
ghost use Rattle.lower_command.specs.Answer.{output_text, notes_text, status_of};

/// A run is done.
pub const DONE: u8 = 0;
/// The input is refused.
pub const REFUSED: u8 = 1;
/// The words are refused.
pub const WORDS: u8 = 2;
/// The input failed.
pub const READ_FAULT: u8 = 3;
/// The output or the notes failed.
pub const WRITE_FAULT: u8 = 4;
/// Memory ran out.
pub const OUT_OF_MEMORY: u8 = 5;
/// The input is too long.
pub const TOO_LONG: u8 = 6;

/// What goes out for an input that is lowered.
#[derive(Drop)]
pub struct Texts {
    /// The text of the lowered program, its newline included.
    pub text: String,
    /// A line for each warning.
    pub warnings: String,
}

/// The answer to the words and the input of a run.
#[derive(Drop)]
pub enum Answer {
    /// The input is lowered.
    Lowered(Texts),
    /// A made script is lowered: the line of counts.
    Generated(String),
    /// The input is refused: the line that tells the cause.
    Refused(String),
    /// The words are refused.
    Words,
    /// The input failed.
    ReadFault,
    /// The input is too long.
    TooLong,
}

impl Answer {
    /// The text for the output.
    pub fn output(&self) -> &[u8]
        ensures { result.now ≡ output_text self.now }
    {
        match self {
            Answer::Lowered(texts) => texts.text.as_bytes(),
            Answer::Generated(line) => line.as_bytes(),
            _ => b"",
        }
    }

    /// The lines for the notes, or nothing.
    pub fn notes(&self) -> &[u8]
        ensures { result.now ≡ notes_text self.now }
    {
        match self {
            Answer::Lowered(texts) => texts.warnings.as_bytes(),
            Answer::Generated(_) => b"",
            Answer::Refused(line) => line.as_bytes(),
            Answer::Words => b"lower: words\n",
            Answer::ReadFault => b"lower: read fault\n",
            Answer::TooLong => b"lower: input too long\n",
        }
    }

    /// The status of a run that gives this answer.
    pub fn status(&self) -> u8
        ensures { result ≡ status_of self.now }
    {
        match self {
            Answer::Lowered(_) | Answer::Generated(_) => DONE,
            Answer::Refused(_) => REFUSED,
            Answer::Words => WORDS,
            Answer::ReadFault => READ_FAULT,
            Answer::TooLong => TOO_LONG,
        }
    }
}
