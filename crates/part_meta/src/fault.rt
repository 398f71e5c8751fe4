use thiserror::Error;

/// Why a catalog or a part's text is refused.
#[derive(Debug, Drop, Error)]
pub enum MetaTextFault {
    /// Line `line`, from 1, is the first that no text has behind the lines before it; a line counts with its line
    /// feed. Where the text ends too early behind whole lines, it is the line after them.
    #[error("line {line} is no line of such a text")]
    At { line: u32 },
    #[error("out of memory")]
    OutOfMemory,
}
