//! Moves in a run.
ghost use Rattle.std.specs.Prelude.{◌≡◌, ◌+◌, ◌-◌, true};
ghost use Rattle.history.specs.Search.{first_stop, last_stop};
ghost use Rattle.debugger.specs.Answers.{can_go_back, can_go_on, can_go_to, in_range};
ghost use Rattle.debugger.specs.Replies.{Moves};

use crate::answer_text::AnswerText;
use crate::limits::{MOVE_LIMIT, PLACE_LIMIT};
use crate::reply::Reply;
use history::{Emulator, History};
use std::alloc::AllocError;

/// Goes `n` steps forward.
pub fn forward<H: History>(h: &mut H, n: u64) -> Result<Reply, AllocError>
    ensures moves { Moves (H.origin h.old) (can_go_on (H.place h.old) n) (H.place h.old) (H.place h.old + n) (H.place h.new) result }
    ensures origin { H.origin h.new ≡ H.origin h.old }
{
    let now = h.now();
    if !can_go_on(now, n) {
        return Ok(Reply::Fixed(b"? range\n"));
    }
    move_to(h, now + n)
}

/// Goes `n` steps back.
pub fn back<H: History>(h: &mut H, n: u64) -> Result<Reply, AllocError>
    ensures moves { Moves (H.origin h.old) (can_go_back (H.place h.old) n) (H.place h.old) (H.place h.old - n) (H.place h.new) result }
    ensures origin { H.origin h.new ≡ H.origin h.old }
{
    let now = h.now();
    if !can_go_back(now, n) {
        return Ok(Reply::Fixed(b"? range\n"));
    }
    move_to(h, now - n)
}

/// Goes to step `k`.
pub fn go_to<H: History>(h: &mut H, k: u64) -> Result<Reply, AllocError>
    ensures moves { Moves (H.origin h.old) (can_go_to k) (H.place h.old) k (H.place h.new) result }
    ensures origin { H.origin h.new ≡ H.origin h.old }
{
    if !can_go_to(k) {
        return Ok(Reply::Fixed(b"? range\n"));
    }
    move_to(h, k)
}

/// Continues to the next stop, at most `n` steps.
pub fn continue_on<H: History>(h: &mut H, stops: &[u64], n: u64) -> Result<Reply, AllocError>
    ensures moves { Moves (H.origin h.old) (can_go_on (H.place h.old) n) (H.place h.old) (first_stop stops.now (H.origin h.old) (H.place h.old) n) (H.place h.new) result }
    ensures origin { H.origin h.new ≡ H.origin h.old }
{
    let now = h.now();
    if !can_go_on(now, n) {
        return Ok(Reply::Fixed(b"? range\n"));
    }
    let place = h.first(now + n, stops)?;
    move_to(h, place)
}

/// Goes back to the last breakpoint.
pub fn continue_back<H: History>(h: &mut H, stops: &[u64]) -> Result<Reply, AllocError>
    ensures moves { Moves (H.origin h.old) true (H.place h.old) (last_stop stops.now (H.origin h.old) (H.place h.old)) (H.place h.new) result }
    ensures origin { H.origin h.new ≡ H.origin h.old }
{
    let place = h.last(stops)?;
    move_to(h, place)
}

/// Moves to step `k`, and replies with its line. The buffer for the line exists before anything moves.
fn move_to<H: History>(h: &mut H, k: u64) -> Result<Reply, AllocError>
    ensures moves { Moves (H.origin h.old) true (H.place h.old) k (H.place h.new) result }
    ensures origin { H.origin h.new ≡ H.origin h.old }
{
    let mut text = AnswerText::new();
    h.go(k)?;
    let machine = h.machine();
    text.push_move(k, machine.pc(), machine.status());
    Ok(Reply::Text(text))
}

fn in_range(n: u64) -> bool
    ensures { result ≡ in_range n }
{
    1 <= n && n <= MOVE_LIMIT
}

fn can_go_on(k: u64, n: u64) -> bool
    ensures { result ≡ can_go_on k n }
{
    in_range(n) && k <= PLACE_LIMIT - n
}

fn can_go_back(k: u64, n: u64) -> bool
    ensures { result ≡ can_go_back k n }
{
    in_range(n) && n <= k
}

fn can_go_to(place: u64) -> bool
    ensures { result ≡ can_go_to place }
{
    place <= PLACE_LIMIT
}
