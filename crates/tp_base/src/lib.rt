//! The plain data of the thread pool machine: who acts, what is called, what is answered, the
//! rows that a world consists of, and how they change.
//!
//! Nothing here decides anything. The definitions over these types stand in `tp_model`.
//!
//! Client 1 submits object 1, and is told that callback 3 is pending:
//!
//! ```text
//! (Who::Client(1), Call::SubmitWork { object: ObjectId(1) })     // c1 submit 1
//! Answer::Queued { first: 3, count: 1 }                          // queued 3 1
//! ```

#![tactic(auto)]

pub mod answers;
pub mod calls;
pub mod ids;
pub mod limits;
pub mod plans;
pub mod rows;
