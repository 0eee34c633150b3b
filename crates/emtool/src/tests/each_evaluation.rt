//! Evaluations in which one call of the device, of the shelf or of the output fails, each in turn.
//!
//! Each list of these circuits fits one block. A block is released by no call of the device, and taken by
//! none. Before the first step its calls are these:
//!
//!     begin        1
//!     store        1 for each list that has a record: resets, definitions, gates, uses
//!     queue        store the two blocks of a new queue's tree
//!     definitions  load the list, and store it in order
//!     twice        1 loads them again
//!     gates        as the definitions
//!     edges        load the gates, and then as the definitions, with the list of uses
//!     compare      load definitions and edges, and store both lists
//!     end, queue   load the queue's two blocks; then as above
//!     straight     load gates and sources, load the edges and store those between ranks
//!     merge        load sources and gates, and store their list; then the same of this list and the edges
//!     pass         load the merged list, and load it again; store the list anew
//!     rank         as a pass, also if there is no gate
//!     order        as the definitions, with the edges between ranks
//!     end, queue   as above
//!     part         load the edges, and store those from inputs and latches
//!
//! All that a queue has at once stands in memory, so that its pushes and pops make no call. The four
//! lists are stored also if one of these calls fails. If the circuit is straight (inputs, latches and gates are
//! numbered in this order, with no gap, and each gate is above its operands), the line `straight` stands for merge,
//! pass, rank and order; else it isn't there. A pass that finds no gate comes only if fewer
//! passes than gates found one.
use crate::tests::each_call::wrong_in;
use std::test::Fail;

/// Circuits that are evaluated on a stimulus, in rows as `each_call` has them. The shelf is called once to open the
/// circuit, once for each 3 bytes of it, and once at its end; and so for the stimulus, which is read as it is used. The
/// output is called at the end of the run alone, for each 3 bytes.
const ROWS: [&str; 30] = [
    // Two inputs, an output and a gate, and so three edges. The line of the first step is pending if the second one fails,
    // and is sent then. The device: 40 calls, of which 32 come before the first step:
    //
    //     begin, store   1 + 3
    //     queue          2
    //     definitions    2, and twice 1
    //     gates          2
    //     edges          3
    //     compare        4
    //     end, queue     2 + 2
    //     straight       2 + 2
    //     end, queue     2 + 2
    //     part           2
    //
    // Then each step makes 4 calls:
    //
    //     1   stores the inputs' bits
    //     2   load the edges from inputs and the bits
    //     1   loads the edge from the gate
    //
    // The shelf: 15 calls: 11 for the circuit's 26 bytes, and 4 for the stimulus, of which each of the two lines is one
    // read. The output: two calls, for 3 bytes and for 1.
    "eval --block=128 --frames=64 a s|aag 3 2 0 1 1/2/4/6/6 2 4/|11/01/|1/0/|0|\
     36 0,4 2|13 0,1 2,1 4|1 0,1 3",
    // A latch too, which the gate sets and the output shows, and so four edges. The device: 49 calls, of which 33 come
    // before the first step: as of the conjunction, and 1 that stores the latch's reset. Then each step makes 8 calls:
    //
    //     3   store the inputs' bits, load and store them to link the latch's bit
    //     3   load the edges from inputs and latch, and two blocks of bits
    //     1   loads the edge from the gate
    //     1   stores the latch's bit
    //
    // The shelf: 16 calls, since the circuit's 30 bytes want 10 reads. The output: as of the conjunction.
    "eval --block=128 --frames=64 a s|aag 4 2 1 1 1/2/4/6 8/6/8 2 4/|11/01/|0/1/|0|\
     41 0,8 2|14 0,1 2,1 4|1 0,1 3",
    // A latch whose next bit is its negation: one definition, no gate and three edges. The device: 37 calls, of which 28
    // come before the first step:
    //
    //     begin, store          1 + 3
    //     queue                 2
    //     definitions           2, and twice 1
    //     edges                 2
    //     compare               4
    //     end, queue            2 + 2
    //     straight              1 + 2
    //     end, queue            2 + 2
    //     part                  2
    //
    // Then each step makes 3 calls: 2 load edges and bit, and 1 stores the latch's new bit. The shelf: 13 calls: 10 for the circuit's 22 bytes, and 3 for the stimulus, of which one read gives the
    // three lines. The output: three calls.
    "eval --block=128 --frames=64 a s|aag 1 0 1 2 0/2 3/2/3/|///|01/10/01/|0|\
     31 0,3 3,3 6|12 0,1 9|1 0,1 3,1 6",
    // The same latch with the reset 1, and a bad literal in place of the outputs: two edges. The device: 34 calls, 28 before
    // the first step and 3 in each, as above. The shelf: 13 calls, since the circuit's 24 bytes want 8 reads. The output:
    // two calls.
    "eval --block=128 --frames=64 a s|aag 1 0 1 0 0 1/2 3 1/2/|//|1/0/|0|\
     31 0,3 2|12 0,1 4|1 0,1 3",
    // The output is the constant 1: one edge, from variable 0, and nothing is defined. The device: 22 calls, of which 20
    // come before the first step: begin and store 2, queue 2, edges 2, compare 2 for one list, end and queue 4, straight 2, end
    // and queue 4, part 2. Then each step makes a call, which loads the edge. The shelf: 11 calls: 8 for the circuit's 16 bytes, and 3 for the stimulus. The output: two calls.
    "eval --block=128 --frames=64 a s|aag 0 0 0 1 0/1/|//|1/1/|0|\
     21 0,1 2|10 0,1 4|1 0,1 3",
    // Nothing is defined and nothing is used, and a step prints an empty line. The device: 11 calls, one that begins it, 2
    // for the first queue, and twice 4 that end one and make another. The shelf: 10 calls, since the circuit's 14 bytes
    // want 5 reads. The output: one call.
    "eval --block=128 --frames=64 a s|aag 0 0 0 0 0/|//|//|0|11 0|9 0,1 2|1 0",
    // The second line of the conjunction's stimulus ends too early. The device: 36 calls, the 32 before the first step and
    // its 4. The shelf: 14 calls, since the fault is found before
    // the end. The output: one call, for the line of the first step.
    "eval --block=128 --frames=64 a s|aag 3 2 0 1 1/2/4/6/6 2 4/|11/0/|1/|2|36 0|13 0,1 2|1 0",
    // Two latches, of which the second takes the bit of the first: three definitions, no gate and three edges. The device:
    // 56 calls, of which 28 come before the first step, as of the latch that is negated. Then each step makes 7 calls: 3
    // store the input's bit and link the latches' to it; 3 load the edges and two blocks of bits; and 1 stores the latches'
    // bits.
    // The shelf: 16 calls: 11 for the circuit's 26 bytes, and 5 for the stimulus, whose 8 bytes want 3 reads: the second
    // one comes in the second step, the third one before the fourth. The output: three calls.
    "eval --block=128 --frames=64 a s|aag 3 1 2 1 0/2/4 2/6 4/6/|1/0/0/0/|0/0/1/0/|0|\
     35 0,7 2,7 4,7 6|13 0,1 2,1 6,1 8|1 0,1 3,1 6",
    // A gate's line stands before that of its operand: four definitions, two gates and five edges. The first pass finds
    // both gates, so that no second one is made. The device: 58 calls, of which 42 come before the first step: as of the
    // conjunction, but for straight merge 3 + 3, pass 3, rank 3 and order 2. Then each step makes 4 calls, as there. The shelf: 19 calls: 13 for the circuit's 32 bytes, and 6 for
    // the stimulus, of which each line is one read. The output: three calls.
    "eval --block=128 --frames=64 a s|aag 4 2 0 1 2/2/4/8/8 6 2/6 2 4/|00/01/10/11/|0/0/0/1/|0|\
     46 0,4 2,4 4,4 6|15 0,1 2,1 4,1 6,1 8|1 0,1 3,1 6",
    // A gate uses a gate of a greater variable, so that the first pass finds that one, and the second pass the other: three
    // definitions, two gates and five edges. The output is the input. The device: 53 calls, of which 45 come before the
    // first step, as of the circuit before and 3 for the second pass, and each step makes 4. The shelf: 16 calls: 12 for the circuit's 30
    // bytes, and 4 for the stimulus, whose 4 bytes want 2 reads, of which the second one comes in the second step. The
    // output: two calls.
    "eval --block=128 --frames=64 a s|aag 3 1 0 1 2/2/4/4 2 6/6 2 2/|1/0/|1/0/|0|\
     49 0,4 2|14 0,1 2,1 4|1 0,1 3",
    // The conjunction in the binary form, with its second input as the gate's first operand, and with a symbol and a
    // comment after it. The device: 40 calls, as of the conjunction in ASCII. The shelf: 16 calls: 12 for the circuit's 28
    // bytes, and 4 for the stimulus. The output: two calls.
    "eval --block=128 --frames=64 a s|aig 3 2 0 1 1/6/\x02\x02i1 y/c/and|11/01/|1/0/|0|\
     36 0,4 2|14 0,1 2,1 4|1 0,1 3",
    // The half adder: the carry 6 is x and y, 7 is neither, and the sum 3 is neither of both. Five definitions, three gates
    // and eight edges. The first pass finds 6 and 7, whose variables are greater than that of the sum, and the second one
    // the sum. The device: 61 calls, of which 45 come before the first step, as of the circuit before, and each of
    // four steps makes 4. The shelf: 34 calls: 28 for the circuit's 78 bytes, one that opens the
    // stimulus, one for each of its lines, and one at its end. The output: four calls for 12 bytes.
    "eval --block=128 --frames=64 a s|\
     aag 7 2 0 2 3/2/4/6/12/6 13 15/12 2 4/14 3 5/i0 x/i1 y/o0 s/o1 c/c/half adder/|\
     00/01/10/11/|00/10/10/01/|0|49 0,4 3,4 6,4 9|30 0,1 3,1 6,1 9,1 12|4 0+3",
    // The half adder in the binary form: 3 is x and y, 4 is neither, and the sum 5 is neither of both. It is straight.
    // The device: 48 calls, the 32 of the conjunction before the first step and 4 in each of four steps. The shelf: 28
    // calls: 22 for the circuit's 58 bytes, and 6 for the stimulus. The output: four calls.
    "eval --block=128 --frames=64 a s|\
     aig 5 2 0 2 3/10/6/\x02\x02\x03\x02\x01\x02i0 x/i1 y/o0 s/o1 c/c/half adder/|\
     00/01/10/11/|00/10/10/01/|0|36 0,4 3,4 6,4 9|24 0,1 3,1 6,1 9,1 12|4 0+3",
    //
    // Circuits without latches, many lines at once. The device is called before the first group as before the first step
    // above, and a group makes 2 calls more than a step: 1 stores the columns' words, and 1 loads them. The lines of a
    // group go to the printer after all of its calls, so that a call that fails in a group leaves those of the groups
    // before it.
    //
    // The conjunction on two lines. The device: 38 calls, 32 before the first group and its 6. The shelf: 16 calls, the
    // 15 of two steps, since the group looks for a third line, and 1 more at the end of the stimulus. The output: two calls.
    "eval --wide --block=128 --frames=64 a s|aag 3 2 0 1 1/2/4/6/6 2 4/|11/01/|1/0/|0|38 0|15 0,1 4|1 0,1 3",
    // The second line ends too early. The device: 38 calls, since the group has one line. The shelf: 14 calls, since the
    // fault is found before the end. The output: one call.
    "eval --wide --block=128 --frames=64 a s|aag 3 2 0 1 1/2/4/6/6 2 4/|11/0/|1/|2|38 0|14 0|1 0",
    // The first line ends too early, and the group has none. The device: 32 calls. The shelf: 13 calls. The output isn't
    // called.
    "eval --wide --block=128 --frames=64 a s|aag 3 2 0 1 1/2/4/6/6 2 4/|1/11/||2|32 0|13 0|",
    // The constant 1 on 65 lines, of which the last one is a group of its own. The device: 26 calls: 20 before the first
    // group, and 3 in each: 1 loads the edge, 1 stores the column's word, and 1 loads it.
    // The shelf: 33 calls: 8 for the circuit, 1 that opens the stimulus, 22 for its 65 bytes, of which the last one gives the
    // 65th line too, and 2 at its end: one in the second group, and one after it. The output: 44 calls for 130 bytes.
    "eval --wide --block=128 --frames=64 a s|aag 0 0 0 1 0/1/|\
     /////////////////////////////////////////////////////////////////|\
     1/1/1/1/1/1/1/1/1/1/1/1/1/1/1/1/1/1/1/1/1/1/1/1/1/1/1/1/1/1/1/1/\
     1/1/1/1/1/1/1/1/1/1/1/1/1/1/1/1/1/1/1/1/1/1/1/1/1/1/1/1/1/1/1/1/1/|0|\
     23 0,3 128|31 0,1 128,1 130|44 0+3",
    //
    // A fault of the circuit, or a stimulus that isn't there: no step is made, and the output isn't called.
    //
    // A fault of a line is found before a list is stored: the device is only begun. The shelf: the call that opens the
    // circuit, and a read for each 3 bytes up to the one that is looked at last. That is byte 21 in the header of ten
    // numbers, byte 13 in the next one, the newline at 19 after the literal 9, also if there is no stimulus, and the space at 28 after the position 2.
    "eval --block=128 --frames=64 a s|aag 3 2 0 1 1 0 0 0 0 0/|11/01/||2|1 0|9 0|",
    "eval --block=128 --frames=64 a s|aag 3 2 0 1 2/|11/01/||2|1 0|6 0|",
    "eval --block=128 --frames=64 a s|aag 3 2 0 1 1/2/4/9/6 2 4/|11/01/||2|1 0|8 0|",
    "eval --block=128 --frames=64 a t|aag 3 2 0 1 1/2/4/9/6 2 4/|11/01/||2|1 0|8 0|",
    "eval --block=128 --frames=64 a s|aag 3 2 0 1 1/2/4/6/6 2 4/i2 x/|11/01/||2|1 0|11 0|",
    // The same of a gate's delta, though the inputs count as read: the reads go up to the delta at byte 16, which is 0 in
    // the first text. In the second one it goes on, and the text's end at 17 is found by one read more.
    "eval --block=128 --frames=64 a s|aig 3 2 0 1 1/6/\x00\x02|11/01/||2|1 0|7 0|",
    "eval --block=128 --frames=64 a s|aig 3 2 0 1 1/6/%|11/01/||2|1 0|8 0|",
    // The stimulus isn't there. The device: 28 calls, all that come before the first step but 2 for the queue of the steps
    // and the 2 that part the edges. The shelf: 12 calls, of which the last one would open the stimulus.
    "eval --block=128 --frames=64 a t|aag 3 2 0 1 1/2/4/6/6 2 4/|11/01/||3|28 0|12 0|",
    // Variable 3 is defined twice, by two gates. The device: 9 calls: begin and store 4, queue 2, definitions 2, and twice
    // 1. The shelf: 13 calls, one that opens the circuit, 11 for its 31 bytes, and one that finds its end.
    "eval --block=128 --frames=64 a s|aag 5 1 0 1 2/2/6/6 2 10/6 2 2/|11/01/||2|9 0|13 0|",
    // A gate uses variable 5, which nothing defines. The device: 16 calls: begin and store 4, queue 2, definitions 2, twice
    // 1, gates 2, edges 3, and compare 2, since neither list is stored. The
    // shelf: 11 calls, 9 of them for 25 bytes.
    "eval --block=128 --frames=64 a s|aag 5 1 0 1 1/2/6/6 2 10/|11/01/||2|16 0|11 0|",
    // The gates 3 and 4 use each other, and gate 2 uses gate 3, so that the first pass finds none. The device: 32 calls:
    // begin and store 4, queue 2, definitions 2, twice 1, gates 2, edges 3, compare 4, end and
    // queue 4, merge 3 + 3, a pass 3, and 1 that loads the list to find the first gate without a rank. The shelf: 14 calls,
    // 12 of them for 36 bytes.
    "eval --block=128 --frames=64 a s|aag 4 1 0 1 3/2/4/4 2 6/6 2 8/8 2 6/|11/01/||2|32 0|14 0|",
    // The latch whose next bit is its negation, with many steps at once, also if the stimulus isn't there. The device: 24
    // calls, all that come before the first step but 2 for the queue of the steps and the 2 that part the edges. The shelf:
    // 10 calls for the circuit's 22 bytes, and none for the stimulus.
    "eval --block=128 --frames=64 --wide a s|aag 1 0 1 2 0/2 3/2/3/|///||2|24 0|10 0|",
    "eval --block=128 --frames=64 --wide a t|aag 1 0 1 2 0/2 3/2/3/|///||2|24 0|10 0|",
];

#[test]
fn evaluations_end_at_each_failing_call(rt: HostRuntime) -> Result<(), Fail> {
    let mut number = 0u64;
    for row in ROWS {
        number = number.saturating_add(1);
        assert_eq!(rt; wrong_in(&rt, row)?, None, "row {number}");
    }
    Ok(())
}
