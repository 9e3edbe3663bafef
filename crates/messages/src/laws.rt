//! The laws of messages: a letter that was posted with a message is handled as that message.

ghost use Rattle.std.specs.Prelude.{◌≡◌, ℕ, ◌≤◌, Some, length};
ghost use Rattle.chare_index.specs.declared.limits.TheConstants.Limits.{STATE_BYTES};
ghost use Rattle.chares.specs.declared.entry.Entry.{Entry};
ghost use Rattle.messages.specs.Messages.{as_letters, message_in, typed_step};

use crate::receives::Receives;
use std::alloc::Allocator;

/// The laws of messages. The function does nothing: its clauses are the laws, which hold for any chare with messages, and for each
/// message that fits its type, as every value does, and that packs. It is what its pack is read as. So a letter that was posted with it
/// is handled as that message, whatever PE it comes to.
pub fn messages_law<C: Receives<A>, A: Allocator>()
    ensures read { (m : C.Message) → C.Message.fits m → C.Message.counted m → length (C.Message.pack m) ≤ STATE_BYTES
        → message_in C.Message.unpack (C.Message.pack m) ≡ Some m }
    ensures handled { (chare : C) (me n : ℕ) (m : C.Message) → C.Message.fits m → C.Message.counted m → length (C.Message.pack m) ≤ STATE_BYTES
        → typed_step C.Message.pack C.Message.unpack C.step chare me n (Entry.Letter (C.Message.pack m))
        ≡ as_letters C.Message.pack C.Message.unpack C.step (C.step chare me n (Entry.Letter m)) }
{}
