// What a station asks of a register: the same five numbers in every service.

/// A request. Its client and sequence say who asks and how often they have asked; the service reads the rest.
#[derive(Clone, Copy, PartialEq, Eq, Debug, Default)]
pub struct Request {
    pub client: u32,
    pub sequence: u32,
    pub code: u32,
    pub key: u32,
    pub value: u32,
}
