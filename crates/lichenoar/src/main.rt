// The frame program: an asking frame a line on standard input, an answer line each on standard output. docs/SCOPE.md, The frame program.
// It splits lines and copies bytes: what it writes for a line is crate answering's. A last line without its newline counts.
#![tactic(auto)]

mod deliver;
mod lines;
mod serve;
mod telling;
mod turn;

use deliver::Answerer;
use splitting::serving::serve;
use telling::tell;

fn main(rt: HostRuntime) {
    let mut stdin = rt.stdin();
    let mut answerer = Answerer::new();
    serve(&mut stdin, &mut answerer);
    tell(answerer.turn.state);
}
