//! What travels from PE to PE: a letter or an element, with an address if it has one.

use chare_index::Pe;

/// What goes from PE to PE: a letter, or an element.
#[derive(Drop)]
pub enum Carried<L, E> {
    /// A letter.
    Letter(L),
    /// An element that was packed.
    Element(E),
}

/// What is carried, perhaps with the PE that it goes to.
#[derive(Drop)]
pub struct Addressed<P> {
    /// What is carried.
    pub parcel: P,
    /// The PE that it goes to, once its element has been looked up.
    pub address: Option<Pe>,
}
