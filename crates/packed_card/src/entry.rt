/// A directory entry: a file's number, and the stretch of the image that holds it.
#[derive(Clone, Copy)]
pub struct Entry {
    pub file: u16,
    pub start: usize,
    pub length: usize,
}
