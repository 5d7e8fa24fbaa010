//! Why a script or a record is refused.

/// Why a line is no text of a script (`docs/FORMATS.md`, "Text").
#[derive(Clone, Copy, PartialEq, Eq, Debug)]
pub enum TextCause {
    /// A byte is above 126, or below 32 and neither a tab nor a carriage return.
    NotAscii,
    /// The line has more than 1,000 bytes.
    LongLine,
    /// A piece has none of the forms.
    BadToken,
    /// A number in a piece is above 4,294,967,295.
    NumberTooLarge,
}

/// Why a line does not follow the grammar (`docs/FORMATS.md`, "Grammar").
#[derive(Clone, Copy, PartialEq, Eq, Debug)]
pub enum ParseCause {
    /// The first piece is no word that is allowed here, or a piece is not of the form that is
    /// wanted.
    UnknownWord,
    /// The line ends before a piece that is wanted; or a script has no piece, or a record no line
    /// `record` or no end line.
    Missing,
    /// A piece is left over, or bytes stand behind the end line of a record.
    Extra,
    /// A second limit, or a name or label for the second time.
    Repeated,
    /// A number is outside its range, or a call has more than eight arguments.
    OutOfRange,
    /// The item that begins at this line has no end.
    Unclosed,
}

/// Why a line can not be loaded (`docs/FORMATS.md`, "Loading").
#[derive(Clone, Copy, PartialEq, Eq, Debug)]
pub enum LoadCause {
    /// No line declares the name as what is wanted, or it is written in capitals and no kernel type.
    UnknownName,
    /// An object of a kernel type other than DATA and UNIVERSAL, or an entry of a DATA object.
    WrongPart,
    /// The line passes a limit.
    TooMany,
    /// A name is the name of no right, and the text is not `ALL`.
    BadRights,
}

/// Why a script or a record is refused (`docs/FORMATS.md`, "Audit lines and records").
#[derive(Clone, Copy, PartialEq, Eq, Debug)]
pub enum Cause {
    OfText(TextCause),
    OfParse(ParseCause),
    OfLoad(LoadCause),
    /// A line behind the line `record` is neither an audit line nor an end line, or has no line
    /// feed.
    BadLine,
}
