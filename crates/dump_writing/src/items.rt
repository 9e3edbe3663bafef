//! Lists whose items all have the same number of bytes in the text of a dump.

ghost use Rattle.std.specs.Prelude.{◌≡◌, ◌<◌, ◌++◌, ℕ, List, length, pos, slice_index, slice_index_or, flat_map};
ghost use Rattle.dump_format.specs.Text.{word, price, move_text};
ghost use Rattle.dump_writing.specs.Joined.{joined, joined_list};

use chare_index::{Index, Pe};

/// A list that is written item by item, each as `N` bytes.
pub(crate) trait Items<const N: usize> {
    // the number of items
    ghost count: { Self → ℕ };

    // the text of the item at an index
    ghost item: { Self → ℕ → List ℕ };

    // the text of the list
    ghost text: { Self → List ℕ };

    /// The number of items.
    fn count(&self) -> usize
        ensures { result ≡ count self.now };

    /// The text of the item at an index.
    fn item(&self, i: usize) -> [u8; N]
        requires { i < count self.now }
        ensures { result ≡ item self.now i };

    // the texts of the items make up that of the list
    ghost is_joined: { (list : Self) → joined (item list) (count list) ≡ text list };
}

impl Items<4> for &[u32] {
    ghost count = { λ words. length words.now };

    ghost item = { λ words k. word (slice_index words.now k) };

    ghost text = { λ words. flat_map word words.now };

    ghost is_joined = { λ words. joined_list word 0 words.now };

    fn count(&self) -> usize {
        self.len()
    }

    fn item(&self, i: usize) -> [u8; 4] {
        self[i].to_be_bytes()
    }
}

impl Items<8> for &[i64] {
    ghost count = { λ prices. length prices.now };

    ghost item = { λ prices k. price (slice_index_or prices.now k (pos 0)) };

    ghost text = { λ prices. flat_map price prices.now };

    ghost is_joined = { λ prices. joined_list price (pos 0) prices.now };

    fn count(&self) -> usize {
        self.len()
    }

    fn item(&self, i: usize) -> [u8; 8] {
        self[i].to_be_bytes()
    }
}

impl Items<12> for &[(Index, Pe, Pe)] {
    ghost count = { λ moves. length moves.now };

    ghost item = { λ moves k. move_text (slice_index_or moves.now k (0, 0, 0)) };

    ghost text = { λ moves. flat_map move_text moves.now };

    ghost is_joined = { λ moves. joined_list move_text (0, 0, 0) moves.now };

    fn count(&self) -> usize {
        self.len()
    }

    fn item(&self, i: usize) -> [u8; 12] {
        let (index, present, planned) = self[i];
        three_words(index.get(), present.get(), planned.get())
    }
}

/// Three numbers, one after another.
pub(crate) fn three_words(first: u32, second: u32, third: u32) -> [u8; 12]
    ensures { result ≡ word first ++ (word second ++ word third) }
{
    let mut text = [0; 12];
    text[..4].copy_from_slice(&first.to_be_bytes());
    text[4..8].copy_from_slice(&second.to_be_bytes());
    text[8..].copy_from_slice(&third.to_be_bytes());
    text
}
