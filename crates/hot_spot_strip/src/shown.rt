//! What a strip shows a neighbor as a round begins: the value at that end of the strip. The letter with it has 13 bytes: the
//! side on which the neighbor gets it, the round, and the value.

ghost use Rattle.std.specs.Prelude.{◌≡◌, Some};
ghost use Rattle.hot_spot_strip.specs.Showing.{body_of, shown_in, side_byte, side_of};

/// A side of a strip.
#[derive(Clone, Copy, Debug, PartialEq, Eq)]
pub(crate) enum Side {
    Left,
    Right,
}

impl Side {
    fn byte(self) -> u8
        ensures value { result ≡ side_byte self }
    {
        match self {
            Side::Left => 0,
            Side::Right => 1,
        }
    }

    fn of(byte: u8) -> Side
        ensures value { result ≡ side_of byte }
    {
        if byte == 0 {
            return Side::Left;
        }
        Side::Right
    }
}

/// A value that a neighbor has shown.
#[derive(Clone, Copy, Debug, PartialEq, Eq)]
pub(crate) struct Shown {
    /// The side on which that neighbor is.
    pub(crate) side: Side,
    /// The round that the value is for.
    pub(crate) round: u32,
    /// The value at its near end, as that round began.
    pub(crate) value: u64,
}

impl Shown {
    /// The body of a letter with it, from which it can be read again.
    #[tactic(auto, using(crate::proofs::Shows::shown_again))]
    pub(crate) fn body(self) -> [u8; 13]
        ensures value { result ≡ body_of self }
        ensures read { shown_in result ≡ Some self }
    {
        let r = self.round.to_be_bytes();
        let v = self.value.to_be_bytes();
        [
            self.side.byte(),
            r[0],
            r[1],
            r[2],
            r[3],
            v[0],
            v[1],
            v[2],
            v[3],
            v[4],
            v[5],
            v[6],
            v[7],
        ]
    }

    /// The value in a body, or `None` where the body is not 13 bytes long.
    pub(crate) fn read(body: &[u8]) -> Option<Shown>
        ensures value { result ≡ shown_in body.now }
    {
        let [side, a, b, c, d, p, q, r, s, t, u, v, w] = body else {
            return None;
        };
        Some(Shown {
            side: Side::of(*side),
            round: u32::from_be_bytes([*a, *b, *c, *d]),
            value: u64::from_be_bytes([*p, *q, *r, *s, *t, *u, *v, *w]),
        })
    }
}
