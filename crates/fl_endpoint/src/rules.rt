//! Reply rules: to which message of an interface a call of which other is the reply.

ghost use Rattle.std.specs.Prelude.{◌≡◌, ◌<◌, false, length, slice_get, slice_set, replicate, None, Some, IfOk};
ghost use Rattle.std.specs.Option.{option_map};
ghost use Rattle.fl_interface.specs.Interface.{message_of, interface_of};
ghost use Rattle.fl_endpoint.specs.Rules.{rules_of, rule_of, AreNone};
ghost use Rattle.fl_endpoint.specs.View.{rule_at, has_rules};

use fl_base::MsgNo;
use fl_interface::{Interface, Message};
use std::alloc::{AllocError, Global};

// A message of an interface; none where it has no such message.
pub(crate) fn message(interface: &Interface, msg: MsgNo) -> Option<&Message>
    ensures found { option_map (λ m. message_of m.now) result ≡ slice_get (interface_of interface.now).messages msg.0 }
{
    interface.messages.get(usize::from(msg.0))
}

/// For each message the message of the reply to it, where there is a rule.
#[derive(Drop)]
pub(crate) struct ReplyRules {
    replies: Vec<Option<MsgNo>>,
    // Whether a rule was ever set. Until then the rules, which lie in memory that is seldom read, are left alone.
    some: bool,
    ghost none: { some ≡ false → AreNone replies.items },
}

impl ReplyRules {
    // No rule for any of so many messages.
    pub(crate) fn new(alloc: Global, messages: usize) -> Result<ReplyRules, AllocError>
        ensures none { IfOk result (λ rules. rules_of rules.replies.items ≡ replicate messages None) }
    {
        let replies = vec![in alloc; None; messages]?;
        Ok(ReplyRules {
            replies,
            some: false,
        })
    }

    // The message of the reply to a message.
    pub(crate) fn reply_to(&self, msg: MsgNo) -> Option<MsgNo>
        ensures rule { rule_of result ≡ rule_at (rules_of self.now.replies.items) msg.0 }
    {
        if !self.some {
            return None;
        }
        match self.replies.get(usize::from(msg.0)) {
            Some(rule) => *rule,
            None => None,
        }
    }

    // Whether there is any rule.
    pub(crate) fn any(&self) -> bool
        ensures any { result ≡ has_rules (rules_of self.now.replies.items) }
    {
        for rule in &self.replies {
            if rule.is_some() {
                return true;
            }
        }
        false
    }

    // Sets the rule of a message, in place of an earlier one.
    pub(crate) fn set(&mut self, msg: MsgNo, reply: MsgNo)
        requires { msg.0 < length self.old.replies.items }
        ensures set { rules_of self.new.replies.items ≡ slice_set (rules_of self.old.replies.items) msg.0 (Some reply.0) }
    {
        self.some = true;
        self.replies[usize::from(msg.0)] = Some(reply);
    }
}
