// What was expected where a text is no rule.
use thiserror::Error;

#[derive(Clone, Copy, PartialEq, Eq, Debug, Error)]
pub enum Expected {
    #[error("a part, as \"from the beginning to the end\" or bytes in double quotes")]
    Part,
    #[error("a place, as \"the beginning\" or \"the last place\"")]
    Place,
    // Of bytes from an edge of the text, 1 to 64.
    #[error("a number from 1 to 64")]
    Number,
    // Of an nth place that is not the first, 2 to 64.
    #[error("a number from 2 to 64, as in \"the 2nd place\"")]
    LaterNumber,
    #[error("\" bytes from the \", or after 1 \" byte from the \"")]
    Bytes,
    #[error("\"beginning\" or \"end\"")]
    Edge,
    #[error("\"beginning\", \"end\", \"first place \", \"last place \" or the number of a place")]
    Named,
    #[error("the number's ending, as in \"2nd\", \"3rd\" or \"4th\"")]
    OrdinalEnd,
    #[error("\" place \" or \" last place \"")]
    PlaceWord,
    #[error("\"before which \" or \"behind which \"")]
    Side,
    #[error("what ends or begins there, as \"digits end\", \"digits begin\" or \"there's a \" and a byte in double quotes")]
    Kind,
    #[error("\" to \" and a place, with a comma before it after an nth place")]
    To,
    #[error("a byte of what stands in double quotes")]
    Byte,
    #[error("a double quote, a backslash, or an x and two hexadecimal digits")]
    Escape,
    #[error("a hexadecimal digit, 0 to 9 or a to f")]
    Digit,
    #[error("the closing double quote, after up to 64 bytes, or one byte of a sign")]
    Quote,
    #[error("the end, or \"; \" and one more of up to eight parts")]
    End,
}
