use crate::Reader;

mod next;

// The commands of a file one after the other, up to its end or to its first fault: a second pass over a file that has
// read well meets every command, and no refusal.
#[derive(Drop)]
pub struct Commands<'f> {
    reader: Reader<'f>,
    // none is to come: a flag beside the reader, which would check and refuse the same bytes at each further call
    over: bool,
}
