// The command `help`.
use std::io;

const TEXT: &str = "ripotyngue: timing of a logic block with known false subgraphs

  ripotyngue check KIND FILE...   say of each file whether it is a good one of its kind
                                  (arcs, delays, bounds or false), or the number and the line
                                  of its refusal
  ripotyngue time OPTIONS         time the block of some files: what each file gave, the slack of
                                  each node, the worst node and the path that decides it
  ripotyngue shell                commands from the standard input, one answer to each
  ripotyngue demo                 time a built-in block with and without a false set, under a trial,
                                  by an early measure, and with a refused file
  ripotyngue demo-parts           read built-in files, good ones and damaged ones, and say what
                                  came of each; then show measures and delay sources at work
  ripotyngue help                 this text

The status is 0 when all went well, and 1 when a file, a timing or a path was refused, a file could
not be read, or a word of the command line was not understood; the shell's status is 0 at the end of
its input.

Options of time, each at most once and in any order:
  --arcs FILE  --delays FILE  --bounds FILE     the block; these three must be given
  --false FILE       its false sets; without it there are none
  --measure NAME     ticks (the default); staged, which counts the arcs of a path beside its ticks;
                     early, early-staged: the same for the earliest arrivals, with opposite signs
  --margin P         delays times P thousandths, rounded up; P below 1000 counts as 1000, and above
                     2000 as 2000
  --trace WHICH      the paths to be shown: worst (the default), all, or the number of a node
A slack below zero is too late. The worst node has the least slack; of equals it is the lowest.

Commands of the shell; an answer is one line, but for sheet and slacks, whose answers end with a
line end. N is a node, A an arc, S a set, T a number of ticks. A row is its numbers joined by commas.
  arc N N                            arc A, the number of the new arc from N to N
  drop A, start N T, end N T, trim A T, pair S N N, clear S
                                     ok
  load KIND PATH                     ok, or refused NUMBER line LINE
  margin P, margin off, measure NAME, lines COUNT
                                     ok; measure and lines (the length of the line tables, 4096 at
                                     first) start with blank tables
  time                               lines COUNT, or refused 12 cause C arc A level L,
                                     refused 13 arc A, refused 14, refused 15
  sheet                              line I node N tag G arrival ROW back A LINE required ROW
                                     fore A LINE, for each line of the last timing
  slacks                             node N slack ROW line I, for each node that has a slack
  trace N                            path A A ..., from start to end; none where N has no slack
  trial A T                          ok; then the arc has the trim T until endtrial, and only time,
                                     sheet, slacks and trace are served
  endtrial                           ok, after a refused trial too
A call that is refused answers refused NUMBER and changes nothing, but for a refused time, which leaves
blank tables, and a refused trial, which is open until endtrial all the same. A number above 2147483646
or below -2147483646 is out of range, number 6, as is a margin below 0 or above 65535. What is no
command, and a file that cannot be read, answers error: and what is wrong. Blank lines and lines that
begin with # are passed over.

A file is a line of column names in any order, value lines with their fields in that order, and the
line end,N where N counts the value lines. Commas separate, and each line ends with a line feed.
  arcs    from,to           delays  arc,ticks
  bounds  node,side,ticks   false   set,from,to
The side is s for a start or e for an end. Numbers have one to seven digits, a minus sign where
below zero, no leading zero and no -0. A file has at most 60000 bytes.
";

pub fn help(rt: &HostRuntime) -> io::Result<()> {
    rt.print(TEXT)
}
