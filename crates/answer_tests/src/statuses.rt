//! The numbers of statuses.
use command_answers::Status;
use std::process::ExitCode;

// The number with which the process ends.
#[test]
fn each_status_has_its_number(rt: HostRuntime) {
    for (status, number) in [
        (Status::Ok, 0),
        (Status::NoMemory, 1),
        (Status::Usage, 2),
        (Status::ReadFault, 3),
        (Status::WriteFault, 4),
        (Status::Refused, 5),
        (Status::TooLong, 6),
        (Status::Illegal, 7),
        (Status::Found, 9),
    ] {
        assert_eq!(rt; ExitCode::from(status), ExitCode::from(number));
    }
}
