// The calls from C: numbers and lists of bytes. include/wakhvosi.h says what each byte means.
#![tactic(auto)]

ghost use Rattle.std.specs.Prelude.{List, ℕ};
ghost use Rattle.model.specs.Request.{filter, withdraw, choose, choose_several};
ghost use Rattle.model.specs.Moves.{widen, narrow};
ghost use Rattle.layout.specs.Loan.{entry};
ghost use Rattle.encoding.specs.Packed.{outcome};
ghost use Rattle.encoding.specs.Call.{byte_book, byte_request, KeepsBytes, TestedBytes, ComparedBytes, listing, EnumeratesBytes};
ghost use Rattle.byte_moves.specs.Moves.{KeepsMoveBytes};

use byte_calls::NOT_WHOLE;
use byte_calls::change::{Call, change_call};
use byte_calls::reading::{compare_bytes, test_bytes};
use byte_combinations::combinations_bytes;
use byte_moves::{narrow_bytes, widen_bytes};
use encoding::lengths::{cells_whole, instance_whole, network_whole};
use model::Value;

// Filters what lives.
#[tactic(auto, unfolding(byte_calls::specs::Call::change_in))]
pub fn wakhvosi_filter(
    sheets: &mut [u8],
    questions: &[u8],
    codes: &[u8],
    m: u16,
    combinations: &[u8],
    marks: &mut [u8],
    supports: &mut [u8],
) -> u64
    ensures { KeepsBytes (byte_request (byte_book (λ (l : List ℕ). l) sheets.old questions.now codes.now m combinations.now) marks.old supports.old filter) (outcome result sheets.new marks.new supports.new) }
{
    change_call(
        Call::Filter,
        sheets,
        questions,
        codes,
        m,
        combinations,
        marks,
        supports,
        &questions[..0],
        &questions[..0],
    )
}

// Withdraws the tuples whose ids are listed, live or dead, and filters what then lives.
#[tactic(auto, unfolding(byte_calls::specs::Call::change_in, encoding::specs::Call::byte_reply))]
pub fn wakhvosi_withdraw(
    sheets: &mut [u8],
    questions: &[u8],
    codes: &[u8],
    m: u16,
    combinations: &[u8],
    marks: &mut [u8],
    supports: &mut [u8],
    ids: &[u8],
) -> u64
    ensures { KeepsBytes (byte_request (byte_book (λ (l : List ℕ). l) sheets.old questions.now codes.now m combinations.now) marks.old supports.old (withdraw ids.now)) (outcome result sheets.new marks.new supports.new) }
{
    if ids.len() % 2 != 0 {
        return NOT_WHOLE;
    }
    change_call(
        Call::Withdraw,
        sheets,
        questions,
        codes,
        m,
        combinations,
        marks,
        supports,
        ids,
        &questions[..0],
    )
}

// Withdraws every tuple that has another value than `code` under variable `question`, and filters what then lives.
#[tactic(auto, unfolding(byte_calls::specs::Call::change_in))]
pub fn wakhvosi_choose(
    sheets: &mut [u8],
    questions: &[u8],
    codes: &[u8],
    m: u16,
    combinations: &[u8],
    marks: &mut [u8],
    supports: &mut [u8],
    question: u16,
    code: Value,
) -> u64
    ensures { KeepsBytes (byte_request (byte_book (λ (l : List ℕ). l) sheets.old questions.now codes.now m combinations.now) marks.old supports.old (choose question code)) (outcome result sheets.new marks.new supports.new) }
{
    change_call(
        Call::Choose(question, code),
        sheets,
        questions,
        codes,
        m,
        combinations,
        marks,
        supports,
        &questions[..0],
        &questions[..0],
    )
}

// Withdraws every tuple that has, under a variable of `chosen_questions`, another value than `chosen_codes` has in the same place, and
// filters what then lives.
#[tactic(auto, unfolding(byte_calls::specs::Call::change_in, encoding::specs::Call::byte_reply))]
pub fn wakhvosi_choose_several(
    sheets: &mut [u8],
    questions: &[u8],
    codes: &[u8],
    m: u16,
    combinations: &[u8],
    marks: &mut [u8],
    supports: &mut [u8],
    chosen_questions: &[u8],
    chosen_codes: &[u8],
) -> u64
    ensures { KeepsBytes (byte_request (byte_book (λ (l : List ℕ). l) sheets.old questions.now codes.now m combinations.now) marks.old supports.old (choose_several chosen_questions.now chosen_codes.now)) (outcome result sheets.new marks.new supports.new) }
{
    if !cells_whole(chosen_questions.len(), chosen_codes.len()) {
        return NOT_WHOLE;
    }
    change_call(
        Call::ChooseSeveral,
        sheets,
        questions,
        codes,
        m,
        combinations,
        marks,
        supports,
        chosen_questions,
        chosen_codes,
    )
}

// Whether the live tuples are consistent.
#[tactic(auto, unfolding(encoding::specs::Call::byte_test))]
pub fn wakhvosi_test(
    sheets: &[u8],
    questions: &[u8],
    codes: &[u8],
    m: u16,
    combinations: &[u8],
    marks: &[u8],
) -> u64
    ensures { TestedBytes (byte_book entry sheets questions codes m combinations) marks.now result }
{
    if !instance_whole(
        sheets.len(),
        questions.len(),
        codes.len(),
        combinations.len(),
    ) {
        return NOT_WHOLE;
    }
    if marks.len() % 8 != 0 {
        return NOT_WHOLE;
    }
    test_bytes(sheets, questions, codes, m, combinations, marks)
}

// Whether the tuples with ids a and b agree.
#[tactic(auto, unfolding(encoding::specs::Call::byte_compare))]
pub fn wakhvosi_compare(sheets: &[u8], questions: &[u8], codes: &[u8], a: u16, b: u16) -> u64
    ensures { ComparedBytes sheets.now questions.now codes.now a b result }
{
    if !network_whole(sheets.len(), questions.len(), codes.len()) {
        return NOT_WHOLE;
    }
    compare_bytes(sheets, questions, codes, a, b)
}

// Lists every connected combination of m members, in order, in front of the bytes lent.
#[tactic(auto, unfolding(encoding::specs::Call::byte_enumeration))]
pub fn wakhvosi_combinations(
    sheets: &[u8],
    questions: &[u8],
    codes: &[u8],
    m: u16,
    combinations: &mut [u8],
) -> u64
    ensures { EnumeratesBytes (byte_book (λ (l : List ℕ). l) sheets.now questions.now codes.now m combinations.old) (listing result combinations.new) }
{
    if !instance_whole(
        sheets.len(),
        questions.len(),
        codes.len(),
        combinations.len(),
    ) {
        return NOT_WHOLE;
    }
    combinations_bytes(sheets, questions, codes, m, combinations)
}

// Moves values of two bytes to values of four, to the front of the target.
#[tactic(auto, unfolding(byte_moves::specs::Moves::byte_move))]
pub fn wakhvosi_widen(sheets: &[u8], questions: &[u8], codes: &[u8], target: &mut [u8]) -> u64
    ensures { KeepsMoveBytes widen sheets.now questions.now codes.now target.old result target.new }
{
    if !instance_whole(sheets.len(), questions.len(), target.len(), codes.len()) {
        return NOT_WHOLE;
    }
    widen_bytes(sheets, questions, codes, target)
}

// Moves values of four bytes back to values of two.
#[tactic(auto, unfolding(byte_moves::specs::Moves::byte_move))]
pub fn wakhvosi_narrow(sheets: &[u8], questions: &[u8], codes: &[u8], target: &mut [u8]) -> u64
    ensures { KeepsMoveBytes narrow sheets.now questions.now codes.now target.old result target.new }
{
    if !instance_whole(sheets.len(), questions.len(), codes.len(), target.len()) {
        return NOT_WHOLE;
    }
    narrow_bytes(sheets, questions, codes, target)
}
