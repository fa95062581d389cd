// An example: of the given text the wanted one is to be made.
#[derive(Clone, Copy)]
pub struct Example<'a> {
    pub given: &'a [u8],
    pub wanted: &'a [u8],
}
