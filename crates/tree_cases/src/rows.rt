// The rows of a section: the lines of a text, and behind them a line `=> ANSWER`.

/// A text, and the answer that is wanted.
#[derive(Clone, Copy)]
pub struct Row<'a> {
    pub text: &'a str,
    pub wanted: &'a str,
    /// The rows behind it.
    pub rest: &'a str,
}

/// The first of some rows; none where no answer stands behind the text.
pub fn first_row(rows: &str) -> Option<Row<'_>> {
    let (text, behind) = match rows.strip_prefix("=>") {
        None => rows.split_once("\n=>")?,
        Some(behind) => ("", behind),
    };
    let (wanted, rest) = behind.split_once('\n')?;
    Some(Row {
        text,
        wanted: wanted.strip_prefix(' ').unwrap_or(wanted),
        rest,
    })
}
