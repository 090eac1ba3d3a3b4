// The sweep program: a request a line on standard input, the frames of an accepted one on standard output, and a line on standard error for
// a refused one. docs/SCOPE.md, The sweep. It splits lines and copies bytes: what it writes for a line is crate sweeping's.
#![tactic(auto)]

mod answer;
mod serve;
mod text;
mod turn;

use serve::Sweeper;
use splitting::serving::serve;
use splitting::telling::tell_end;

fn main(rt: HostRuntime) {
    let mut stdin = rt.stdin();
    let mut sweeper = Sweeper::new();
    serve(&mut stdin, &mut sweeper);
    let last = sweeper.turn();
    let unwritten =
        b"sweep: the frames and refusals could not be written; the output is not complete\n";
    let unread = b"sweep: the input could not be read to its end; the output is not complete\n";
    tell_end(last.state, last.refused, unwritten, unread);
}
