//! The changes of the ticket lock, in the order of its code.

use crate::{Change, Found, How, PhaseName, Written};

pub static CHANGES: [Change; 5] = changes! {
    TakeTicket: How::LeaveOut(Written::All);
    TakeTicket: How::Split;
    AwaitTurn: How::Find(Found::Own);
    ReadServing: How::Find(Found::Own);
    PassOn: How::LeaveOut(Written::All);
};
