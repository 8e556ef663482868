//! Writing records and replies.
ghost use Rattle.std.specs.Prelude.{◌≡◌, ◌≤◌, length, IfOk};
ghost use Rattle.layout.specs.Frames.{writing};
ghost use Rattle.wire_out.specs.Writing.{coded, coded_record};

use crate::output::Output;
use layout::field::Field;
use layout::write::write_message;
use market::record::Record;
use market::refusal::Refusal;

fn write_record(told: &Record, buf: &mut [u8]) -> Result<usize, Refusal>
    ensures value { (result, buf.new) ≡ writing (coded_record told.now) buf.old }
    ensures bound { IfOk result (λ n. n ≤ length buf.old) }
{
    match *told {
        Record::Quiet { time } => write_message(16, &[Field::Time(time)], &[], buf),
        Record::Fill { time, fill } => {
            let fields = [
                Field::Time(time),
                Field::Price(fill.price),
                Field::Number(fill.size),
                Field::Number(fill.bid),
                Field::Number(fill.bidleft),
                Field::Number(fill.offer),
                Field::Number(fill.offerleft),
            ];
            write_message(17, &fields, &[], buf)
        }
        Record::Session {
            time,
            price,
            passive,
        } => {
            let fields = [
                Field::Time(time),
                Field::Price(price),
                Field::Number(passive),
            ];
            write_message(18, &fields, &[], buf)
        }
        Record::Rolling { time } => write_message(19, &[Field::Time(time)], &[], buf),
        Record::Fbs { time } => write_message(20, &[Field::Time(time)], &[], buf),
        Record::Open { time } => write_message(21, &[Field::Time(time)], &[], buf),
        Record::Removal {
            time,
            number,
            displayed,
            cause,
        } => {
            let fields = [
                Field::Time(time),
                Field::Number(number),
                Field::Number(displayed),
                Field::Byte(cause.into()),
            ];
            write_message(22, &fields, &[], buf)
        }
    }
}

/// Writes the message at the front of `buf`, and says how many bytes it has; or leaves `buf` as it was, if it is too short.
pub fn write(output: &Output, buf: &mut [u8]) -> Result<usize, Refusal>
    ensures value { (result, buf.new) ≡ writing (coded output.now) buf.old }
    ensures bound { IfOk result (λ n. n ≤ length buf.old) }
{
    match *output {
        Output::Record(told) => write_record(&told, buf),
        Output::Reply { refusal, order } => {
            write_message(32, &[Field::Byte(refusal), Field::Number(order)], &[], buf)
        }
    }
}
