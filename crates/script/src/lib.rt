// A script: calls in plain numbers, with FCBs and buffers of any lengths, made one after another through the public call; and the protection
// lifted and set between them.
#![tactic(auto)]

ghost use Rattle.std.specs.Prelude.{◌≡◌, ◌+◌, ◌≤◌, length};
ghost use Rattle.format.specs.Diskette.{eight_inch};
ghost use Rattle.demands.specs.Runs.{disk_of, after_act, run};
ghost use Rattle.script.specs.Script.{asked_at_rule, request, act_by, acts_of, acts_left, Ends};

use model::{Asked, Session};

// The numbers of a call in a script: its own, its argument, day, hour and minute, and the lengths of its FCB and of its buffer.
const CALL_NUMBERS: usize = 7;

// In place of a call's number: the protection lifted, and set. They are numbers, since a script may have any.
const LIFTS: usize = 256;

const PROTECTS: usize = 257;

// Where a run stands: past the FCBs and the buffers of the acts that were made, and the session that these left.
#[derive(Clone, Copy)]
struct Point {
    fcbs: usize,
    buffers: usize,
    session: Session,
}

// What a call of a script asks for: its first five numbers, each in its range. The call is there whole: the loop's bound.
fn asked_at(script: &[usize], at: usize) -> Asked
    requires { at + 7 ≤ length script.now }
    ensures { result ≡ asked_at_rule script.now at }
{
    // The numbers fit: the casts lose nothing.
    Asked {
        number: (script[at] % 256) as u8,
        argument: (script[at + 1] % 256) as u8,
        day: (script[at + 2] % 65536) as u16,
        hour: (script[at + 3] % 256) as u8,
        minute: (script[at + 4] % 256) as u8,
    }
}

// Where the next n bytes end, or all of them if fewer are left. A part starts within its slice: the loop's invariant.
fn ends_at(bytes: &[u8], from: usize, n: usize) -> usize
    requires { from ≤ length bytes.now }
    ensures { Ends bytes.now from n result }
{
    if n < bytes.len() - from {
        return from + n;
    }
    bytes.len()
}

// One act of a script, by the number that stands for it.
fn make_act(
    number: usize,
    asked: Asked,
    image: &mut [u8],
    map: &mut [u16],
    fcb: &mut [u8],
    buffer: &mut [u8],
    session: Session,
) -> Session
    ensures { disk_of image.new map.new result
        ≡ after_act eight_inch (disk_of image.old map.old session)
        (act_by number (request asked fcb.old buffer.old)) }
{
    if number == LIFTS {
        return protection::lift(session);
    }
    if number == PROTECTS {
        return protection::protect(session);
    }
    bdos::call(asked, image, map, fcb, buffer, session).session
}

// The next act of a script: those that are left, made on what it leaves, come to what they and it came to before. What it requires is the
// loop's bound and invariant.
fn next_act(
    script: &[usize],
    at: usize,
    fcbs: &mut [u8],
    buffers: &mut [u8],
    image: &mut [u8],
    map: &mut [u16],
    p: Point,
) -> Point
    requires { (at + 7 ≤ length script.now) × (p.fcbs ≤ length fcbs.old) × (p.buffers ≤ length buffers.old) }
    ensures { (acts_left script.now (at + 7) fcbs.new buffers.new image.new map.new result
        ≡ acts_left script.now at fcbs.old buffers.old image.old map.old p)
        × (result.fcbs ≤ length fcbs.old) × (result.buffers ≤ length buffers.old) }
{
    let fcb_from = p.fcbs;
    let fcb_to = ends_at(fcbs, fcb_from, script[at + 5]);
    let from = p.buffers;
    let to = ends_at(buffers, from, script[at + 6]);
    let asked = asked_at(script, at);
    let number = script[at];
    let session = make_act(
        number,
        asked,
        image,
        map,
        &mut fcbs[fcb_from..fcb_to],
        &mut buffers[from..to],
        p.session,
    );
    Point {
        fcbs: fcb_to,
        buffers: to,
        session,
    }
}

// The acts of a script, one after the other, with FCBs and buffers of any length.
pub fn run_script(
    script: &[usize],
    fcbs: &mut [u8],
    buffers: &mut [u8],
    image: &mut [u8],
    map: &mut [u16],
    session: Session,
) -> Session
    ensures { disk_of image.new map.new result
        ≡ run eight_inch (disk_of image.old map.old session)
        (acts_of script.now fcbs.old buffers.old) }
{
    let mut p = Point {
        fcbs: 0,
        buffers: 0,
        session,
    };
    for k in 0..script.len() / CALL_NUMBERS {
        p = next_act(script, CALL_NUMBERS * k, fcbs, buffers, image, map, p);
    }
    p.session
}
