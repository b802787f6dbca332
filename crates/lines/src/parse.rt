// What an input line says.
ghost use Rattle.std.specs.Prelude.{◌≡◌, slice_index};
ghost use Rattle.std.specs.Option.{option_map};
ghost use Rattle.lines.specs.Input.{begin_of, call_in, head_in};
ghost use Rattle.lines.specs.Text.{numbers};

use crate::fields::numbers;
use crate::head::Head;
use protocol::call::Call;
use protocol::settings::Settings;

// The largest number of a first line.
const HEAD_LIMIT: u16 = 65535;

// The largest number of a call.
const CALL_LIMIT: u16 = 255;

// What a first line says, or none if it is malformed.
pub fn parse_head(line: &[u8]) -> Option<Head>
    ensures { result ≡ head_in line.now }
{
    let [memory, limit, threads, hazards, roots, nodes, places, bound] = numbers::<8>(
        HEAD_LIMIT, line,
    )?;
    Some(Head {
        memory: usize::from(memory),
        limit: u32::from(limit),
        settings: Settings {
            threads: usize::from(threads),
            hazards: usize::from(hazards),
            roots: usize::from(roots),
            nodes: usize::from(nodes),
            places: usize::from(places),
        },
        bound: u32::from(bound),
    })
}

// The one thread that a landing or a step names.
fn parse_thread(line: &[u8]) -> Option<usize>
    ensures { result ≡ option_map (λ ns. slice_index ns 0) (numbers 255 1 line.now) }
{
    let [thread] = numbers::<1>(CALL_LIMIT, line)?;
    Some(usize::from(thread))
}

// The begin of a thread, an operation and its two arguments.
fn parse_begin(line: &[u8]) -> Option<Call>
    ensures { result ≡ option_map begin_of (numbers 255 4 line.now) }
{
    let [thread, operation, a, b] = numbers::<4>(CALL_LIMIT, line)?;
    Some(Call::Begin {
        thread: usize::from(thread),
        operation: usize::from(operation),
        a: usize::from(a),
        b: usize::from(b),
    })
}

// The call that a later line asks for, or none if it is malformed.
pub fn parse_call(line: &[u8]) -> Option<Call>
    ensures { result ≡ call_in line.now }
{
    match line {
        [b't'] => Some(Call::Tick),
        [b'l', b' ', rest @ ..] => Some(Call::Land {
            thread: parse_thread(rest)?,
        }),
        [b's', b' ', rest @ ..] => Some(Call::Step {
            thread: parse_thread(rest)?,
        }),
        [b'b', b' ', rest @ ..] => parse_begin(rest),
        _ => None,
    }
}
