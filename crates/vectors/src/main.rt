// The documents' vectors, run over the proved calls and compared. Each gives a line: ok or WRONG, what was asked, what was
// answered and, where that is wrong, what was expected.
#![tactic(auto)]

mod answers;
mod check_sequence;
mod code_blocks;
mod rows;
mod two_ends;

fn main(rt: HostRuntime) {
    check_sequence::run(&rt);
    code_blocks::run(&rt);
    two_ends::run(&rt);
}
