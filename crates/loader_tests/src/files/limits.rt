use super::{MANY_REQUESTS, POWER, POWER_END, answer};
use plant_loader::Version;
use std::alloc::{AllocError, Global};
use std::process::Abort;
use std::test::Fail;

const MANY_NETWORKS: &str = "version = 1\n[[controller]]\nnode = 1\nsegment = [{ networks = [";

const MANY_MESSAGES: &str = "version = 1\n[[controller]]\nnode = 1\nregisters = 10\n\
    segment = [{ networks = [";

const MANY_REFERENCES: &str = "version = 1\n[[controller]]\nnode = 1\ncoils = 16\npanel = [";

const MANY_CONTROLLERS: &str = "version = 1\ncontroller = [";

// What stands before hosts.
const MANY_HOSTS: &str = "version = 1\ncontroller = [{ node = 0 }]\nhost = [";

// What stands before the bytes of a request.
const PDU: &str =
    "version = 1\ncontroller = [{ node = 1 }]\nhost = [{ node = 2, requests = [\"1 1 ";

// Texts of many items, and how each is answered.
struct Limit {
    start: &'static str,
    item: &'static str,
    count: u16,
    end: &'static str,
    answer: &'static str,
}

const LIMITS: [Limit; 13] = [
    Limit {
        start: MANY_NETWORKS,
        item: "\"\",",
        count: 1000,
        end: "] }]\n",
        answer: "taken",
    },
    Limit {
        start: MANY_NETWORKS,
        item: "\"\",",
        count: 1001,
        end: "] }]\n",
        answer: "13 TooLarge controller 1 segment 1",
    },
    Limit {
        start: MANY_MESSAGES,
        item: "\"1,1 MSTR 40001 40010 1\",",
        count: 64,
        end: "] }]\n",
        answer: "taken",
    },
    Limit {
        start: MANY_MESSAGES,
        item: "\"1,1 MSTR 40001 40010 1\",",
        count: 65,
        end: "] }]\n",
        answer: "13 TooLarge controller 1 segment 1 network 65 cell 1",
    },
    Limit {
        start: MANY_REFERENCES,
        item: "\"00001\",",
        count: 64,
        end: "]\n",
        answer: "taken",
    },
    Limit {
        start: MANY_REFERENCES,
        item: "\"00001\",",
        count: 65,
        end: "]\n",
        answer: "13 TooLarge controller 1",
    },
    Limit {
        start: POWER,
        item: "\"x\",",
        count: 32,
        end: POWER_END,
        answer: "15 BadPower controller 1 power 1",
    },
    Limit {
        start: POWER,
        item: "\"x\",",
        count: 33,
        end: POWER_END,
        answer: "13 TooLarge controller 1",
    },
    Limit {
        start: MANY_CONTROLLERS,
        item: "{ node = 0 },",
        count: 17,
        end: "]\nhost = 1\n",
        answer: "13 TooLarge plant",
    },
    Limit {
        start: MANY_HOSTS,
        item: "{},",
        count: 17,
        end: "]\n",
        answer: "13 TooLarge plant",
    },
    Limit {
        start: MANY_REQUESTS,
        item: "\"x\",",
        count: 1001,
        end: "] }]\n",
        answer: "13 TooLarge host 1",
    },
    Limit {
        start: PDU,
        item: "00",
        count: 253,
        end: "\"] }]\n",
        answer: "taken",
    },
    Limit {
        start: PDU,
        item: "00",
        count: 254,
        end: "\"] }]\n",
        answer: "3 BadValue host 1 request 1",
    },
];

fn push_items(text: &mut String, limit: &Limit) -> Result<(), AllocError> {
    text.push_str(limit.start)?;
    for _ in 0..limit.count {
        text.push_str(limit.item)?;
    }
    text.push_str(limit.end)
}

// What the file with the items of a limit is answered with.
fn answer_at(alloc: Global, newest: Version, limit: &Limit) -> Result<String, AllocError> {
    let mut text = String::new(alloc);
    push_items(&mut text, limit)?;
    answer(alloc, newest, text.as_bytes())
}

fn keeps_limit(rt: &impl Abort, alloc: Global, newest: Version, limit: &Limit) -> Result<(), Fail> {
    let answer = answer_at(alloc, newest, limit)?;
    assert_eq!(rt;
        answer.as_str(),
        limit.answer,
        "{} of {}",
        limit.count,
        limit.item
    );
    Ok(())
}

#[test]
fn limits_are_kept(rt: HostRuntime) -> Result<(), Fail> {
    for limit in &LIMITS {
        keeps_limit(&rt, rt.alloc(), Version::One, limit)?;
    }
    Ok(())
}

const MANY_NETS: &str = "version = 2\ncontroller = [{}]\nnetwork = [";

const MANY_BRIDGES: &str = "version = 2\nnetwork = [{ number = 1 }]\n\
    controller = [{ node = 1, network = 1 }]\nbridges = [";

const JOINED_LIMITS: [Limit; 4] = [
    Limit {
        start: MANY_NETS,
        item: "{},",
        count: 8,
        end: "]\n",
        answer: "2 BadKey network 1",
    },
    Limit {
        start: MANY_NETS,
        item: "{},",
        count: 9,
        end: "]\n",
        answer: "13 TooLarge plant",
    },
    Limit {
        start: MANY_BRIDGES,
        item: "\"\",",
        count: 16,
        end: "]\n",
        answer: "16 BadNetwork bridge 1",
    },
    Limit {
        start: MANY_BRIDGES,
        item: "\"\",",
        count: 17,
        end: "]\n",
        answer: "13 TooLarge plant",
    },
];

#[test]
fn limits_of_several_networks_are_kept(rt: HostRuntime) -> Result<(), Fail> {
    for limit in &JOINED_LIMITS {
        keeps_limit(&rt, rt.alloc(), Version::Two, limit)?;
    }
    Ok(())
}

const NESTED: Limit = Limit {
    start: "x = ",
    item: "[",
    count: 10_000,
    end: "",
    answer: "1 BadToml plant",
};

#[test]
fn what_is_nested_too_deep_is_no_document(rt: HostRuntime) -> Result<(), Fail> {
    let answer = answer_at(rt.alloc(), Version::One, &NESTED)?;
    assert_eq!(rt; answer.as_str(), NESTED.answer);
    Ok(())
}
