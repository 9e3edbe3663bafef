//! What a PE did with the parcel in its hand.

/// What a PE did with the parcel in its hand.
#[derive(Clone, Copy, Debug, PartialEq, Eq)]
pub enum Acted {
    /// The letter was executed by its element.
    Executed,
    /// The letter came before its element and waits on the shelf.
    Shelved,
    /// The letter was sent on to the PE where its element was looked for.
    Forwarded,
    /// The element was unpacked into the room.
    Installed,
}
