// The commands of a script, and the words that they stand for.

// How many bytes a number takes.
#[derive(Clone, Copy)]
pub(crate) enum Width {
    One,
    Four,
    Eight,
}

// Whether a call is made on the file alone, or through the record held.
#[derive(Clone, Copy)]
pub(crate) enum Way {
    Alone,
    Through,
}

// A call that reads the lent bytes.
#[derive(Clone, Copy)]
pub(crate) enum Question {
    Validate,
    Describe,
    Extension,
    Open,
    Tables,
    Index,
    Section,
    Data,
    Check,
    Words,
}

// What a line of a script asks for.
#[derive(Clone, Copy)]
pub(crate) enum Command {
    File,
    Lend,
    Keep,
    Take,
    Put(Width),
    Create,
    Append(Way),
    Batch(Way),
    Update(Way),
    Every,
    Hold,
    Alter,
    Ask(Question),
}

impl Question {
    // The call that a word stands for, if any.
    fn parse(word: &[u8]) -> Option<Question> {
        match word {
            b"validate" => Some(Question::Validate),
            b"describe" => Some(Question::Describe),
            b"extension" => Some(Question::Extension),
            b"open" => Some(Question::Open),
            b"tables" => Some(Question::Tables),
            b"index" => Some(Question::Index),
            b"section" => Some(Question::Section),
            b"data" => Some(Question::Data),
            b"check" => Some(Question::Check),
            b"words" => Some(Question::Words),
            _ => None,
        }
    }
}

impl Command {
    // The command that a word stands for, if any.
    pub(crate) fn parse(word: &[u8]) -> Option<Command> {
        match word {
            b"file" => Some(Command::File),
            b"lend" => Some(Command::Lend),
            b"keep" => Some(Command::Keep),
            b"take" => Some(Command::Take),
            b"put1" => Some(Command::Put(Width::One)),
            b"put4" => Some(Command::Put(Width::Four)),
            b"put8" => Some(Command::Put(Width::Eight)),
            b"create" => Some(Command::Create),
            b"append" => Some(Command::Append(Way::Alone)),
            b"append_through" => Some(Command::Append(Way::Through)),
            b"batch" => Some(Command::Batch(Way::Alone)),
            b"batch_through" => Some(Command::Batch(Way::Through)),
            b"update" => Some(Command::Update(Way::Alone)),
            b"update_through" => Some(Command::Update(Way::Through)),
            b"every" => Some(Command::Every),
            b"hold" => Some(Command::Hold),
            b"alter" => Some(Command::Alter),
            _ => Some(Command::Ask(Question::parse(word)?)),
        }
    }
}
