/// A place in a source text. Lines and columns count from 1, columns in bytes; line 0 means that there is no place.
/// File 0 is the core stub; then come the stubs and the Java sources in the order of the command's words, and last the
/// settings and the choices file.
#[derive(Clone, Copy, Debug, PartialEq, Eq, Hash)]
pub struct Pos {
    pub file: u32,
    pub line: u32,
    pub col: u32,
}
