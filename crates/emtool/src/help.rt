/// What `emtool --version` prints.
pub const VERSION: &str = "emtool 0.1.0\n";

/// What `emtool --help` prints.
pub const HELP: &str = "\
usage: emtool map|queue|stab|dump [options] FILE
       emtool eval [options] CIRCUIT STIMULUS
       emtool gen [options] map|queue|stab|eval START COUNT
       emtool --help | --version

Answers a command file, or evaluates a circuit, with structures in external memory.

Commands:
  map FILE      lines `put K V`, `add K V`, `del K`, `get K` and `sync`; prints one line for each get:
                the value of the key by the commands before it, or `-`; an add joins V to the value
                of the key, or sets it if there is none (--combine); at each `sync`, before it reads
                on, the lines of all gets so far that weren't printed, and at the end the others;
                where a line is faulty, those that were printed at the syncs before it
                example: emtool map prices.txt
  queue FILE    lines `push K V` and `pop`; prints one line for each pop before it reads on: the key
                and the value of the element with the least key, of equal keys the one pushed first,
                or `-`; where a line is faulty, the lines of the pops before it
                example: emtool queue tasks.txt
  stab FILE     lines `iv LO HI` and `stab P`; prints one line for each stab: the numbers of the
                intervals before it that hold the point, counted from 0, or `-`; nothing where a line
                is faulty
                example: emtool stab spans.txt
  dump FILE     lines as those of `map`; prints after the last one a line for each key that has a value
                then: the key and the value, keys ascending; nothing for gets and syncs, and nothing
                where a line is faulty
                example: emtool dump prices.txt
  eval CIRCUIT STIMULUS
                the circuit is in the ASCII or the binary form of AIGER, without a cycle of gates;
                each line of STIMULUS is a step, with a `0` or `1` for each input; prints the outputs,
                the bad literals and the constraints of each step on a line, and enforces none;
                a latch begins with its reset; where a line of STIMULUS is faulty, the lines of the
                steps before it; nothing where the circuit is
                example: emtool eval adder.aag adder.txt
  gen KIND START COUNT
                runs the command KIND on texts that are made from the number START: COUNT lines of
                commands, or a circuit of COUNT gates with a stimulus; prints one line with the
                number of lines, of bytes and the sum of the bytes that the command answers
                example: emtool gen --stats map 1 1000

Options, before the operands:
  --block=N     records of a block, 128 to 65536; default 1024
                example: emtool map --block=4096 prices.txt
  --frames=N    frames of one block each, a multiple of 8 from 64 to the lesser of 1024 and half of
                --block; default 8 times (--block / 16 rounded down), at most 256
                example: emtool map --block=128 --frames=64 prices.txt
  --blocks=N    blocks of the scratch device, 1 to 1099511627776; default 1048576
                example: emtool map --blocks=1000 prices.txt
  --combine=NAME
                at `map` and `dump`: how an add joins two values: sum (modulo 2^64), max, min or xor;
                default sum
                example: emtool map --combine=max prices.txt
  --early       at `map` alone: gathers commands in memory, --frames / 8 times --block or up to a sync, and
                joins adds of a key with no other command of that key between them before they go to the
                scratch device; the same output at exit codes 0 and 2; it pays if many adds are to few keys
                example: emtool map --early words.txt
  --uninit=N    at `eval` alone: 0 or 1, the bit with which a latch begins if its reset is its own
                literal; no default: without the option such a circuit is refused
                example: emtool eval --uninit=0 counter.aag counter.txt
  --wide        at `eval` alone: up to 64 lines of STIMULUS at once, with the same output; a circuit
                with latches is refused; it pays if STIMULUS has many lines and the circuit is larger
                than memory
                example: emtool eval --wide sorter.aag sorter.txt
  --stats       after the run, `moves N peak K` on the error stream: block moves, and the greatest
                number of frames in use at once; not with exit code 1 or 7
                example: emtool map --stats prices.txt

The scratch device is the file `emtool.scratch` in the current folder. Before it reads a file a run
makes that file; if one is there, its name is taken away first. At its end it removes the name, also
after a fault. The file has 32 times --block bytes for each block that was in use at once, and there
are at most --blocks of them. Two runs in one folder have a file each. Neither a file nor the output
may be that file.

Numbers of command files are decimal, from 0 to 18446744073709551615, with at
most 20 digits.

Exit codes:
  0  done                                     (emtool map prices.txt)
  1  usage: the words name no job             (emtool map)
  2  malformed: an input is faulty            (a map file with the line `put 1`)
  3  an input could not be read               (emtool map no-such-file)
  4  the output could not be written          (emtool map prices.txt > /dev/full)
  5  the scratch device failed                (a full disk, a folder that takes no new file, or
                                              something else of the name `emtool.scratch`)
  6  the scratch device is full               (--blocks=1 under a long file)
  7  no memory for the frames                 (--block=65536 --frames=1024 where 2 GiB can't be had)
  8  a block of the scratch device is damaged (as after another program wrote to `emtool.scratch`;
                                              not every such change is found: other answers with
                                              code 0 are possible too)
";
