//! Messages of every kind.
use wire_in::message::CallMessage;
use wire_out::output::Output;

#[derive(Clone, Copy)]
pub enum Message<'a> {
    Call(CallMessage<'a>),
    Output(Output),
}
