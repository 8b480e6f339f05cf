ghost use Rattle.std.specs.Prelude.{◌≡◌, Some};
ghost use Rattle.queue.specs.Faults.{code_of, message_of, told_code, told_message};

use crate::fault::Fault;
use std::fmt;

// The number that the console tells: for a fault of an axis, 100 times the axis's number is in it.
impl From<Fault> for u16 {
    ghost from_gives = { λ fault code. code ≡ code_of fault };

    fn from(fault: Fault) -> u16 {
        match fault {
            Fault::UnknownCommand => 6,
            Fault::ParameterOutOfRange => 7,
            Fault::AxisOutOfRange => 9,
            Fault::GroupMissing => 13,
            Fault::GroupOutOfRange => 14,
            Fault::GroupNotAssigned => 15,
            Fault::GroupAlreadyAssigned => 16,
            Fault::GroupAxisOutOfRange => 17,
            Fault::GroupAxisAlreadyAssigned => 18,
            Fault::GroupAxisDuplicated => 19,
            Fault::GroupParameterMissing => 29,
            Fault::GroupParameterOutOfRange => 30,
            Fault::GroupVelocityExceeded => 31,
            Fault::GroupAccelerationExceeded => 32,
            Fault::GroupDecelerationExceeded => 33,
            Fault::AxisMissing => 37,
            Fault::ParameterMissing => 38,
            Fault::LineTooLong => 91,
            Fault::WaypointsFull => 92,
            Fault::AxisParameterOutOfRange(axis) => 100 * axis as u16 + 1,
            Fault::PositiveLimitExceeded(axis) => 100 * axis as u16 + 6,
            Fault::NegativeLimitExceeded(axis) => 100 * axis as u16 + 7,
            Fault::VelocityExceeded(axis) => 100 * axis as u16 + 10,
            Fault::AccelerationExceeded(axis) => 100 * axis as u16 + 11,
            Fault::MotorNotEnabled(axis) => 100 * axis as u16 + 13,
            Fault::VelocityOutOfRange(axis) => 100 * axis as u16 + 24,
            Fault::ChangeNotAllowed(axis) => 100 * axis as u16 + 26,
            Fault::InGroup(axis) => 100 * axis as u16 + 31,
        }
    }
}

impl Fault {
    // The number that the console tells.
    pub fn code(self) -> u16
        ensures { result ≡ code_of self }
    {
        self.into()
    }

    // The text that goes with the code.
    pub fn text(self) -> &'static str
        ensures { result.now ≡ message_of self }
    {
        match self {
            Fault::UnknownCommand => "COMMAND DOES NOT EXIST",
            Fault::ParameterOutOfRange => "PARAMETER OUT OF RANGE",
            Fault::AxisOutOfRange => "AXIS NUMBER OUT OF RANGE",
            Fault::GroupMissing => "GROUP NUMBER MISSING",
            Fault::GroupOutOfRange => "GROUP NUMBER OUT OF RANGE",
            Fault::GroupNotAssigned => "GROUP NUMBER NOT ASSIGNED",
            Fault::GroupAlreadyAssigned => "GROUP NUMBER ALREADY ASSIGNED",
            Fault::GroupAxisOutOfRange => "GROUP AXIS OUT OF RANGE",
            Fault::GroupAxisAlreadyAssigned => "GROUP AXIS ALREADY ASSIGNED",
            Fault::GroupAxisDuplicated => "GROUP AXIS DUPLICATED",
            Fault::GroupParameterMissing => "GROUP PARAMETER MISSING",
            Fault::GroupParameterOutOfRange => "GROUP PARAMETER OUT OF RANGE",
            Fault::GroupVelocityExceeded => "GROUP MAXIMUM VELOCITY EXCEEDED",
            Fault::GroupAccelerationExceeded => "GROUP MAXIMUM ACCELERATION EXCEEDED",
            Fault::GroupDecelerationExceeded => "GROUP MAXIMUM DECELERATION EXCEEDED",
            Fault::AxisMissing => "AXIS NUMBER MISSING",
            Fault::ParameterMissing => "COMMAND PARAMETER MISSING",
            Fault::LineTooLong => "LINE TOO LONG",
            Fault::WaypointsFull => "WAYPOINT BUFFER FULL",
            Fault::AxisParameterOutOfRange(_) => "PARAMETER OUT OF RANGE",
            Fault::PositiveLimitExceeded(_) => "POSITIVE SOFTWARE LIMIT EXCEEDED",
            Fault::NegativeLimitExceeded(_) => "NEGATIVE SOFTWARE LIMIT EXCEEDED",
            Fault::VelocityExceeded(_) => "MAXIMUM VELOCITY EXCEEDED",
            Fault::AccelerationExceeded(_) => "MAXIMUM ACCELERATION EXCEEDED",
            Fault::MotorNotEnabled(_) => "MOTOR NOT ENABLED",
            Fault::VelocityOutOfRange(_) => "SPEED OUT OF RANGE",
            Fault::ChangeNotAllowed(_) => "PARAMETER CHANGE NOT ALLOWED",
            Fault::InGroup(_) => "COMMAND NOT ALLOWED DUE TO GROUP ASSIGNMENT",
        }
    }

    // The same as bytes.
    pub fn message(self) -> &'static [u8]
        ensures { result.now ≡ message_of self }
    {
        self.text().as_bytes()
    }
}

impl fmt::Display for Fault {
    ghost output = { λ fault. Some (message_of fault) };

    fn fmt<W: fmt::Write>(&self, f: &mut fmt::Formatter<W>) -> fmt::Result {
        f.pad(self.text())
    }
}

// The code of a fault, and 0 where there is none.
pub fn code_told(fault: Option<Fault>) -> u16
    ensures { result ≡ told_code fault }
{
    fault.map_or(0, u16::from)
}

// The message of a fault, and that none was detected where there is none.
pub fn message_told(fault: Option<Fault>) -> &'static [u8]
    ensures { result.now ≡ told_message fault }
{
    fault.map_or("NO ERROR DETECTED", Fault::text).as_bytes()
}
