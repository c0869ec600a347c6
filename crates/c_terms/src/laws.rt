//! Theorems about the definitions.
ghost use Rattle.std.specs.Prelude.{◌≡◌, ℕ, Some};
ghost use Rattle.synic_board.specs.declared.event.Reply.{Reply};
ghost use Rattle.c_terms.specs.Replies.{IsReplyInRange, reply_to_c, reply_from_c};

/// Decoding the encoding of a reply gives that reply.
pub fn a_told_reply_is_meant()
    ensures { (reply : Reply) (notices : ℕ) → IsReplyInRange reply
        → reply_from_c (reply_to_c reply notices) ≡ Some reply }
{}
