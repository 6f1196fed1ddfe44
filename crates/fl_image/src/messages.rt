//! Messages and interfaces read off the bytes of an image.

ghost use Rattle.std.specs.Prelude.{◌≡◌, [], map, IfErr};
ghost use Rattle.fl_interface.specs.Interface.{message_of, interface_of};
ghost use Rattle.fl_image.specs.Reading.{Gives, Behind, more_at, name_at, message_at, is_next, message_after, message_count_at, messages_at, interface_at};

use crate::fault::{BadImage, ImageFault};
use crate::limits::{is_message_within, is_taken};
use crate::number::{name, two};
use crate::types::arguments;
use fl_interface::{Interface, MAX_MESSAGES, Message, counts_fit};
use std::alloc::Global;

/// A message: its name, and its arguments' types.
#[tactic(auto, unfolding(crate::specs::Reading::message_at))]
fn message(alloc: Global, bytes: &[u8]) -> Result<(Message, &[u8]), ImageFault>
    ensures reads { Gives (λ x. (message_of x.0, x.1.now)) result (message_at bytes.now) }
{
    let (name, rest) = name(alloc, bytes)?;
    let (args, rest) = arguments(alloc, rest)?;
    Ok((Message { name, args }, rest))
}

/// Whether a message keeps the limits behind these.
fn is_next(before: &[Message], message: &Message) -> bool
    ensures exact { result ≡ is_next (map message_of before.now) (message_of message.now) }
{
    is_message_within(message) && !is_taken(before, &message.name.bytes)
}

/// A message behind these.
#[tactic(auto, unfolding(crate::specs::Reading::message_after))]
fn message_after<'a>(
    alloc: Global,
    before: &[Message],
    bytes: &'a [u8],
) -> Result<(Message, &'a [u8]), ImageFault>
    ensures reads { Gives (λ x. (message_of x.0, x.1.now)) result (message_after (map message_of before.now) bytes.now) }
{
    let (message, rest) = message(alloc, bytes)?;
    if !is_next(before, &message) {
        return Err(ImageFault::Refused(BadImage::BadField));
    }
    Ok((message, rest))
}

/// A number of messages.
#[tactic(auto, unfolding(crate::specs::Reading::message_count_at))]
fn message_count(bytes: &[u8]) -> Result<(u32, &[u8]), ImageFault>
    ensures reads { Gives (λ x. (x.0, x.1.now)) result (message_count_at bytes.now) }
{
    let (count, rest) = two(bytes)?;
    if count as usize > MAX_MESSAGES {
        return Err(ImageFault::Refused(BadImage::BadField));
    }
    Ok((count, rest))
}

/// So many messages.
fn some_messages(
    alloc: Global,
    count: u32,
    bytes: &[u8],
) -> Result<(Vec<Message>, &[u8]), ImageFault>
    ensures reads { Gives (λ x. (map message_of x.0.items, x.1.now)) result (more_at message_after count [] bytes.now) }
{
    let mut found = Vec::new(alloc);
    let mut rest = bytes;
    for _ in 0..count {
        let (message, after) = message_after(alloc, &found, rest)?;
        found.push(message)?;
        rest = after;
    }
    Ok((found, rest))
}

/// The messages of an interface.
#[tactic(auto, unfolding(crate::specs::Reading::messages_at))]
fn messages(alloc: Global, bytes: &[u8]) -> Result<(Vec<Message>, &[u8]), ImageFault>
    ensures reads { Gives (λ x. (map message_of x.0.items, x.1.now)) result (messages_at bytes.now) }
{
    let (count, rest) = message_count(bytes)?;
    some_messages(alloc, count, rest)
}

/// An interface: its name, and its messages. They were looked at one by one: so it is within the limits.
#[tactic(auto, unfolding(crate::specs::Reading::interface_at))]
pub(crate) fn interface(alloc: Global, bytes: &[u8]) -> Result<(Interface, &[u8]), ImageFault>
    ensures reads { Gives (λ x. (interface_of x.0, x.1.now)) result (interface_at bytes.now) }
    ensures memory { IfErr result (λ e. Behind e (name_at bytes.now)) }
{
    let (name, rest) = name(alloc, bytes)?;
    let (messages, rest) = messages(alloc, rest)?;
    counts_fit(&messages);
    Ok((Interface { name, messages }, rest))
}
