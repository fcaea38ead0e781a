// SPDX-License-Identifier: Apache-2.0 AND BSD-3-Clause
// The queue as words, and what a call on it tells, for callers that have no enums.
#![tactic(auto)]

ghost use Rattle.std.specs.Prelude.{◌≡◌, true, ◌≤◌, length, Some};
ghost use Rattle.little_endian.specs.Bytes.{put};
ghost use Rattle.queue.specs.Queue.{queue_answer_words, queue_number_of};
ghost use Rattle.queue_words.specs.Words.{queue_length, taken_word, taken_meant, queue_words, is_queue};
ghost use Rattle.queue_words.specs.Words.{decoded_queue_of, ending_words};

use answer_words::{ANSWER_WORDS, tell};
use queue::Ending;
use rings::Queue;
use step::Answer;
use units::GuestAddr;
use words::write_all;

// A queue's length in words.
pub const QUEUE_WORDS: usize = 6;

// The head that a word means: the word less 1, and none where it is 0. No meaning where that is no head.
#[tactic(auto, unfolding(crate::specs::Words::taken_of))]
fn taken_of(word: u64) -> Option<Option<u16>>
    ensures { result ≡ taken_meant word }
{
    match word {
        0 => Some(None),
        _ => Some(Some(u16::try_from(word - 1).ok()?)),
    }
}

// The queue that words begin with, if they do.
pub fn decode_queue(words: &[u64]) -> Option<Queue>
    ensures { result ≡ decoded_queue_of words.now }
{
    let &[
        descriptors,
        available,
        used,
        next_available,
        next_used,
        taken,
        ..
    ] = words
    else {
        return None;
    };
    Some(Queue {
        descriptors: GuestAddr(descriptors),
        available: GuestAddr(available),
        used: GuestAddr(used),
        next_available: u16::try_from(next_available).ok()?,
        next_used: u16::try_from(next_used).ok()?,
        taken: taken_of(taken)?,
    })
}

// A head that is out as a word.
fn taken_word(taken: Option<u16>) -> u64
    ensures value { result ≡ taken_word taken }
    ensures upper_bound { result ≤ 65536 }
{
    match taken {
        None => 0,
        Some(head) => u64::from(head) + 1,
    }
}

// A queue as words.
fn queue_words(q: Queue) -> [u64; QUEUE_WORDS]
    ensures value { result ≡ queue_words q }
    ensures result_value { is_queue result ≡ true }
{
    [
        q.descriptors.0,
        q.available.0,
        q.used.0,
        u64::from(q.next_available),
        u64::from(q.next_used),
        taken_word(q.taken),
    ]
}

// Writes a queue as words; none past the end.
pub fn encode_queue(q: Queue, words: &mut [u64])
    ensures words_after { words.new ≡ put words.old 0 (queue_words q) }
    ensures words_after_2 { queue_length ≤ length words.old → decoded_queue_of words.new ≡ Some q }
{
    write_all(words, queue_words(q));
}

// Writes what a call on a queue tells as words, none past the end, and tells its number.
pub fn tell_queue(answer: Option<Answer>, words: &mut [u64]) -> u64
    ensures value { result ≡ queue_number_of answer }
    ensures words_after { words.new ≡ put words.old 0 (queue_answer_words answer) }
{
    match answer {
        None => {
            let all: [u64; ANSWER_WORDS] = [7, 0, 0, 0, 0, 0, 0, 0, 0];
            write_all(words, all);
            0
        }
        Some(a) => tell(a, words),
    }
}

// What the words of an answer mean for the head that it is about. Its kind is a number here because an answer is words
// at the C interface.
#[tactic(auto, unfolding(crate::specs::Words::ending_words))]
pub fn ending_told(told: [u64; ANSWER_WORDS]) -> Ending
    ensures { result ≡ ending_words told }
{
    match (told[0], told[7]) {
        (1 | 2, _) => Ending::Out,
        (4, _) => Ending::Used(0),
        (5, 0) => Ending::Used(0),
        (5, _) => Ending::Used(10),
        _ => Ending::Stays,
    }
}
