//! Lines that are told one user of several.
ghost use Rattle.std.specs.Prelude.{◌≡◌, ◌+◌, ◌-◌, ◌*◌, ◌++◌, ◌∷◌, ◌≤◌, ◌<◌, ◌==◌, [], IfNone, IfSome, OnErr, OnOk, drop, length, position, take, vec_capacity, vec_len};
ghost use Rattle.std.specs.List.{list_any};
ghost use Rattle.users.specs.Tagged.{IsFirstLine, line_len, tagged, tagged_line};
ghost use Rattle.users.specs.declared.sender.TheConstants.{USER_LIMIT};

use crate::sender::USER_LIMIT;
use std::alloc::AllocError;

/// How many bytes are looked at together for a line feed, which a compiler does at once.
const GROUP: usize = 8;

/// The most bytes that are written one by one, which for a short reply costs less than to look for its lines and copy them.
const SHORT: usize = 32;

/// The most bytes that a byte of a reply comes to: a line feed alone is a user, a space and a line feed.
const GROWTH: usize = USER_LIMIT + 3;

/// Writes bytes one by one where there is room for them, which costs less than a copy of a few.
#[inline(always)]
fn push_each(bytes: &[u8], out: &mut Vec<u8>)
    requires { vec_len out.old + length bytes.now ≤ vec_capacity out.old }
    ensures items { out.new.items ≡ out.old.items ++ bytes.now }
    ensures len { vec_len out.new ≡ vec_len out.old + length bytes.now }
    ensures capacity { vec_capacity out.new ≡ vec_capacity out.old }
{
    let mut rest = bytes;
    'bytes: while let Some((byte, later)) = rest.split_first() {
        out.push_reserved(*byte);
        rest = later;
    }
}

/// Writes a line for a user. Want of memory changes nothing.
fn push_line(user: &[u8], line: &[u8], out: &mut Vec<u8>) -> Result<(), AllocError>
    requires { length user.now ≤ USER_LIMIT }
    ensures ok { OnOk result (out.new.items ≡ out.old.items ++ tagged_line user.now line.now) }
    ensures err { OnErr result (out.new.items ≡ out.old.items) }
{
    out.reserve(user.len() + line.len() + 2)?;
    push_each(user, out);
    out.push_reserved(b' ');
    out.extend_from_slice(line).unwrap();
    out.push_reserved(b'\n');
    Ok(())
}

#[tactic(auto, using(std::proofs::lemmas::List::Folds::list_any_more))]
fn has_feed(group: &[u8; GROUP]) -> bool
    ensures { result ≡ list_any (λ byte. byte == 10) group.now }
{
    let mut found = false;
    'bytes: for byte in group {
        found |= *byte == b'\n';
    }
    found
}

/// What is left of the bytes after the groups in front that have no line feed.
fn after_groups(bytes: &[u8]) -> &[u8]
    ensures part { length result.now ≤ length bytes.now }
    ensures place { line_len bytes.now ≡ length bytes.now - length result.now + line_len result.now }
{
    let mut rest = bytes;
    'groups: while let Some((group, later)) = rest.split_first_chunk::<GROUP>() {
        if has_feed(group) {
            break;
        }
        rest = later;
    }
    rest
}

/// The place of the first line feed, byte by byte.
fn first_feed(bytes: &[u8]) -> Option<usize>
    ensures { result ≡ position (λ byte. byte == 10) bytes.now }
{
    bytes.iter().position(|byte| *byte == b'\n')
}

/// The same as `line_len`, for few bytes.
#[tactic(auto, using(crate::proofs::GroupLemmas::found_len, crate::proofs::GroupLemmas::whole_len))]
fn short_len(bytes: &[u8]) -> usize
    ensures { result ≡ line_len bytes.now }
{
    first_feed(bytes).unwrap_or(bytes.len())
}

/// How many bytes stand before the first line feed, or at all.
#[tactic(auto, using(crate::proofs::GroupLemmas::len_within))]
fn line_len(bytes: &[u8]) -> usize
    ensures value { result ≡ line_len bytes.now }
    ensures within { result ≤ length bytes.now }
{
    let rest = after_groups(bytes);
    bytes.len() - rest.len() + short_len(rest)
}

/// The first line, and what stands after its line feed. None where there are no bytes.
fn split_line(bytes: &[u8]) -> Option<(&[u8], &[u8])>
    ensures some { IfSome result (λ s. IsFirstLine bytes.now s.0.now s.1.now) }
    ensures none { IfNone result (bytes.now ≡ []) }
{
    if bytes.is_empty() {
        return None;
    }
    let len = line_len(bytes);
    if len == bytes.len() {
        return Some((bytes, &[]));
    }
    Some((&bytes[..len], &bytes[len + 1..]))
}

/// Writes the first line of some bytes one by one, with a line feed, where there is room for it. Answers what stands after it.
fn push_first<'a>(bytes: &'a [u8], out: &mut Vec<u8>) -> &'a [u8]
    requires { vec_len out.old + length bytes.now < vec_capacity out.old }
    ensures items { out.new.items ≡ out.old.items ++ (take (line_len bytes.now) bytes.now ++ 10 ∷ []) }
    ensures rest { result.now ≡ drop (line_len bytes.now + 1) bytes.now }
    ensures len { vec_len out.new ≡ vec_len out.old + line_len bytes.now + 1 }
    ensures capacity { vec_capacity out.new ≡ vec_capacity out.old }
{
    let mut rest = bytes;
    'bytes: while let Some((byte, later)) = rest.split_first() {
        if *byte == b'\n' {
            break;
        }
        out.push_reserved(*byte);
        rest = later;
    }
    out.push_reserved(b'\n');
    match rest.split_first() {
        Some((_, later)) => later,
        None => rest,
    }
}

/// Writes each line of a few bytes for a user, where there is room for all.
fn push_short(user: &[u8], bytes: &[u8], out: &mut Vec<u8>)
    requires user { length user.now ≤ USER_LIMIT }
    requires room { vec_len out.old + length bytes.now * GROWTH ≤ vec_capacity out.old }
    ensures { out.new.items ≡ out.old.items ++ tagged user.now bytes.now }
{
    let mut left = bytes;
    'lines: while !left.is_empty() {
        push_each(user, out);
        out.push_reserved(b' ');
        left = push_first(left, out);
    }
}

/// Writes each line of some bytes for a user. On want of memory `out` still begins with its old contents.
fn push_lines(user: &[u8], bytes: &[u8], out: &mut Vec<u8>) -> Result<(), AllocError>
    requires { length user.now ≤ USER_LIMIT }
    ensures ok { OnOk result (out.new.items ≡ out.old.items ++ tagged user.now bytes.now) }
    ensures begins { take (length out.old.items) out.new.items ≡ out.old.items }
{
    let mut left = bytes;
    'lines: while let Some((line, rest)) = split_line(left) {
        push_line(user, line, out)?;
        left = rest;
    }
    Ok(())
}

/// Writes each line of some bytes for a user: the user, a space and the line. On want of memory `out` still begins with its old
/// contents.
pub fn push_tagged(user: &[u8], bytes: &[u8], out: &mut Vec<u8>) -> Result<(), AllocError>
    requires { length user.now ≤ USER_LIMIT }
    ensures ok { OnOk result (out.new.items ≡ out.old.items ++ tagged user.now bytes.now) }
    ensures begins { take (length out.old.items) out.new.items ≡ out.old.items }
{
    if bytes.len() > SHORT {
        return push_lines(user, bytes, out);
    }
    out.reserve(bytes.len() * GROWTH)?;
    push_short(user, bytes, out);
    Ok(())
}
