/// What a run of the command answers.
#[derive(Drop)]
pub struct Answer {
    /// The exit status.
    pub status: u8,
    /// The bytes on standard output.
    pub text: Vec<u8>,
}
