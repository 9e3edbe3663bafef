//! The events of a trace, as a viewer shows them.

/// What a PE did with an element in a slice of its row.
#[derive(Clone, Copy, Debug, PartialEq, Eq)]
pub enum Work {
    /// The element started.
    Start,
    /// The element executed a letter: the PE that posted it, and its number among those of that PE.
    Letter(u32, u32),
    /// The element went on after this round.
    Resume(u32),
    /// The element was packed, and left.
    Depart,
    /// The element arrived.
    Arrive,
}

/// What is shown as an instant in the row of a PE.
#[derive(Clone, Copy, Debug, PartialEq, Eq)]
pub enum Sign {
    /// The PE gave reports of its elements to the board.
    Report,
    /// An element went on after a decision.
    Resumption,
    /// A letter that came before its element was put aside.
    Shelve,
    /// A letter was sent on.
    Forward,
}

/// What goes from one place to another, as an arrow.
#[derive(Clone, Copy, Debug, PartialEq, Eq)]
pub enum Flow {
    /// A letter: the PE that posted it, and its number among those of that PE.
    Letter(u32, u32),
    /// An element that moves.
    Element(u32),
}

/// An event of a trace. Times are nanoseconds; in the text they are microseconds, with a fraction where they are not whole.
#[derive(Clone, Copy, Debug, PartialEq, Eq)]
pub enum TraceEvent {
    /// There is a row for this PE.
    Row(u32),
    /// A PE was at work with an element, from this time on, for this long.
    Slice {
        pe: u32,
        at: u64,
        duration: u64,
        work: Work,
        element: u32,
    },
    /// Something is shown as an instant.
    Instant {
        pe: u32,
        at: u64,
        sign: Sign,
    },
    /// This round was decided. A line goes through all rows.
    Decision {
        at: u64,
        round: u32,
    },
    /// A PE had this load, in work units, in the round that was decided then.
    Load {
        pe: u32,
        at: u64,
        load: u64,
    },
    /// An arrow begins, in the slice of this time.
    Leaves {
        pe: u32,
        at: u64,
        flow: Flow,
    },
    /// An arrow ends, at the slice of this time.
    Comes {
        pe: u32,
        at: u64,
        flow: Flow,
    },
}
