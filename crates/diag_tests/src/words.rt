//! Words that have no form.

/// A line for each run: its words, with a blank between. The empty line has no word, and `\x20` ends in an empty word.
pub const WRONG: &str = "
serve
--help
serve c17.v
serve .bench
serve .dev
serve c17.bench x
serve c17.bench --budget 08
serve c17.bench --budget 8388609
serve c17.bench --sessions
serve c17.bench --sessions 0
serve c17.bench --sessions 1025
serve c17.bench --sessions 2 --sessions 2
serve c17.bench --narrow --narrow
serve c17.bench --narrow 3
serve --narrow c17.bench
plan c17.bench --narrow --narrow
check a.nnf --narrow
load 1 --narrow
serve c17.bench --levels
serve c17.bench --levels 02
serve c17.bench --levels 4096001
serve c17.bench --levels 2 --levels 2
serve c17.bench --least --least
serve c17.bench --levels --least
plan c17.bench --levels 2
plan c17.bench --least
compile c17.bench --levels 2
compile c17.bench --least
check c17.nnf --least
load 1 --levels 2
answer c17.bench
check c17.bench
serve c17.nnf
serve c17.dev --frames 2
serve c17.bench --frames
serve c17.bench --frames 0
serve c17.bench --frames 02
serve c17.bench --frames 65
serve c17.bench --frames 2 --frames 2
plan c17.bench --frames 2
compile c17.bench --frames 2
check c17.nnf --frames 2
load 1 --frames 2
ask
ask c17.nnf
ask c17.bench 2
ask .nnf 2
ask 2 c17.nnf
ask c17.nnf\x20
ask c17.nnf 02
ask c17.nnf +2
ask c17.nnf -2
ask c17.nnf 4097
ask c17.nnf 10000
ask c17.nnf 2 3
ask c17.nnf --sessions 3 2
ask c17.nnf 2 --sessions
ask c17.nnf 2 --sessions 0
ask c17.nnf 2 --sessions 1025
ask c17.nnf 2 --sessions 3 --sessions 3
ask c17.nnf 2 --budget 7
ask c17.nnf 2 --narrow
ask c17.nnf 2 --sessions 3 --narrow
ask c17.nnf 2 --levels 3
ask c17.nnf 2 --least
ask c17.nnf 2 --frames 2
plan c17.nnf
plan c17.bench --budget 7
compile c17.bench --sessions 2
compile c17.bench --budget 0
compile c17.bench --budget 8388609
load
load 0
load 01
load 801
load 1 --budget 5
serve c17.bench --budget 0
serve c17.bench --budget 5 --budget 5
serve c17.bench --sessions 01";
