/// Octets of a journal that stand for nothing: what is behind its batches, if that is more than the octet
/// that the next one is opened by.
#[derive(Drop)]
pub(crate) struct Tail {
    pub(crate) number: u64,
    pub(crate) octets: Vec<u8>,
}
