// SPDX-License-Identifier: Apache-2.0 AND BSD-3-Clause
// The answers as words, for callers that have no enums.
#![tactic(auto)]

ghost use Rattle.std.specs.Prelude.{◌≡◌};
ghost use Rattle.little_endian.specs.Bytes.{put};
ghost use Rattle.refusal.specs.Refusal.{number};
ghost use Rattle.step.specs.declared.Answer.TheVariants.{Refused};
ghost use Rattle.step.specs.Answers.{answer_words, question_words, number_of};

use record::HostCall;
use refusal::Refusal;
use step::Answer;
use words::write_all;

// An answer's length in words.
pub const ANSWER_WORDS: usize = 9;

// What the host is asked, as the words of an answer.
fn question_words(call: HostCall) -> [u64; ANSWER_WORDS]
    ensures { result ≡ question_words call }
{
    match call {
        HostCall::Create { guest, size, slot } => [1, 0, guest.0, size, slot, 0, 0, 0, 0],
        HostCall::Discard { offset, size, host } => [2, 0, offset.0, size, host.0, 0, 0, 0, 0],
    }
}

// An answer as words. Its kind is a number here because an answer is words at the C interface.
fn answer_words(answer: Answer) -> [u64; ANSWER_WORDS]
    ensures { result ≡ answer_words answer }
{
    match answer {
        Answer::Refused(number) => [0, number, 0, 0, 0, 0, 0, 0, 0],
        Answer::Wants(call) => question_words(call),
        Answer::Sized => [3, 0, 0, 0, 0, 0, 0, 0, 0],
        Answer::Unserved(reason) => [4, 0, 0, 0, 0, 0, 0, 0, reason],
        Answer::Served(reply) => [
            5,
            0,
            0,
            0,
            0,
            u64::from(reply.response.resp_type),
            u64::from(reply.response.state),
            u64::from(reply.used),
            reply.why,
        ],
        Answer::Done => [6, 0, 0, 0, 0, 0, 0, 0, 0],
    }
}

// The number of an answer: 0 unless it is refused (R1.0).
pub fn number_of(answer: Answer) -> u64
    ensures { result ≡ number_of answer }
{
    match answer {
        Answer::Refused(number) => number,
        _ => 0,
    }
}

// Writes an answer as words, none past the end, and tells its number.
pub fn tell(answer: Answer, words: &mut [u64]) -> u64
    ensures value { result ≡ number_of answer }
    ensures words_after { words.new ≡ put words.old 0 (answer_words answer) }
{
    let all = answer_words(answer);
    write_all(words, all);
    let number = all[1];
    number
}

// Writes a refusal of the law as words, none past the end, and tells its number.
pub fn tell_refused(refusal: Refusal, words: &mut [u64]) -> u64
    ensures value { result ≡ number refusal }
    ensures words_after { words.new ≡ put words.old 0 (answer_words (Refused (number refusal))) }
{
    tell(Answer::Refused(refusal.number()), words)
}

// Writes words that were told elsewhere; none past the end.
pub fn pass_on(told: [u64; ANSWER_WORDS], words: &mut [u64])
    ensures { words.new ≡ put words.old 0 told }
{
    write_all(words, told);
}
