// Document 01's number for each answer, and the numbers beside it, which are 0 beside a refusal.
//
// The calls answer with `Result`s. Callers in C and the bench program go by numbers, and both take them from here: 0 of a
// call that is done, and of a refusal the number that its enum gives it.
//
// Below stands `rules`.

#![tactic(auto)]

ghost use Rattle.std.specs.Prelude.{◌≡◌, ℕ};
ghost use Rattle.rules.specs.Report.{reason_no};
ghost use Rattle.rules.specs.Call.{answer_no, length_error_no, open_error_no, insert_error_no, find_error_no, any_error_no, list_error_no, sync_error_no, looked_record, newest_issue, newest_record, any_yes, listed_count};

use rules::{
    Any, AnyError, FindError, InsertError, LengthError, ListError, Listed, Looked, Newest,
    OpenError, Reason, SyncError,
};

// Why a call was refused.
pub trait Refusal: Copy {
    ghost number_of: { Self → ℕ };

    fn number(self) -> u32
        ensures { result ≡ number_of self };
}

impl Refusal for LengthError {
    ghost number_of = { length_error_no };

    #[tactic(auto, unfolding(rules::specs::Call::length_error_no))]
    fn number(self) -> u32 {
        match self {
            LengthError::Length => 1,
        }
    }
}

impl Refusal for OpenError {
    ghost number_of = { open_error_no };

    #[tactic(auto, unfolding(rules::specs::Call::open_error_no))]
    fn number(self) -> u32 {
        match self {
            OpenError::Length => 1,
            OpenError::Damaged => 3,
            OpenError::Spent => 8,
        }
    }
}

impl Refusal for InsertError {
    ghost number_of = { insert_error_no };

    #[tactic(auto, unfolding(rules::specs::Call::insert_error_no))]
    fn number(self) -> u32 {
        match self {
            InsertError::Length => 1,
            InsertError::BadKey => 2,
            InsertError::Damaged => 3,
            InsertError::Present => 5,
            InsertError::SyncFirst => 6,
            InsertError::Full => 7,
        }
    }
}

impl Refusal for FindError {
    ghost number_of = { find_error_no };

    #[tactic(auto, unfolding(rules::specs::Call::find_error_no))]
    fn number(self) -> u32 {
        match self {
            FindError::Length => 1,
            FindError::BadKey => 2,
            FindError::Damaged => 3,
            FindError::Missing => 4,
        }
    }
}

impl Refusal for AnyError {
    ghost number_of = { any_error_no };

    #[tactic(auto, unfolding(rules::specs::Call::any_error_no))]
    fn number(self) -> u32 {
        match self {
            AnyError::Length => 1,
            AnyError::BadKey => 2,
            AnyError::Damaged => 3,
        }
    }
}

impl Refusal for ListError {
    ghost number_of = { list_error_no };

    #[tactic(auto, unfolding(rules::specs::Call::list_error_no))]
    fn number(self) -> u32 {
        match self {
            ListError::Length => 1,
            ListError::Damaged => 3,
        }
    }
}

impl Refusal for SyncError {
    ghost number_of = { sync_error_no };

    #[tactic(auto, unfolding(rules::specs::Call::sync_error_no))]
    fn number(self) -> u32 {
        match self {
            SyncError::Length => 1,
            SyncError::Spent => 8,
        }
    }
}

pub fn number<T: Copy, E: Refusal>(answer: Result<T, E>) -> u32
    ensures { result ≡ answer_no E.number_of answer }
{
    match answer {
        Ok(_) => 0,
        Err(refusal) => refusal.number(),
    }
}

#[tactic(auto, unfolding(rules::specs::Call::looked_record))]
pub fn looked_record(answer: Looked) -> u32
    ensures { result ≡ looked_record answer }
{
    answer.unwrap_or(0)
}

#[tactic(auto, unfolding(rules::specs::Call::newest_issue))]
pub fn newest_issue(answer: Newest) -> u32
    ensures { result ≡ newest_issue answer }
{
    match answer {
        Ok(latest) => latest.issue as u32,
        Err(_) => 0,
    }
}

#[tactic(auto, unfolding(rules::specs::Call::newest_record))]
pub fn newest_record(answer: Newest) -> u32
    ensures { result ≡ newest_record answer }
{
    match answer {
        Ok(latest) => latest.value,
        Err(_) => 0,
    }
}

#[tactic(auto, unfolding(rules::specs::Call::any_yes))]
pub fn any_yes(answer: Any) -> u32
    ensures { result ≡ any_yes answer }
{
    match answer {
        Ok(yes) => yes as u32,
        Err(_) => 0,
    }
}

#[tactic(auto, unfolding(rules::specs::Call::listed_count))]
pub fn listed_count(answer: Listed) -> u64
    ensures { result ≡ listed_count answer }
{
    match answer {
        Ok(count) => count as u64,
        Err(_) => 0,
    }
}

#[tactic(auto, unfolding(rules::specs::Report::reason_no))]
pub fn reason(reason: Option<Reason>) -> u32
    ensures { result ≡ reason_no reason }
{
    match reason {
        None => 0,
        Some(Reason::Soundness) => 1,
        Some(Reason::Kind) => 2,
        Some(Reason::Birth) => 3,
        Some(Reason::Range) => 4,
    }
}
