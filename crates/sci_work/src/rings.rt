//! A ring: one node writes items, another reads them in order.
mod consuming;
mod limits;
mod passing;
mod producing;
mod working;

pub use consuming::consume;
pub use passing::ring;
pub use producing::produce;
pub(crate) use working::worked;
