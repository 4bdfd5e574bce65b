// Answers of an office that no session of the program shows: those under limits other than the standard ones.
ghost use Rattle.std.specs.Prelude.{◌≡◌, IfSome};
ghost use Rattle.register_words.specs.Limits.{AreLimits};

use lei_code::Lei;
use lei_keeper::Keeper;
use lei_office::{Call, Limits, Office, Reply, Request, is_upload_number};
use lei_shapes::Moment;
use lei_values::{NoMemory, Shared};
use memory_devices::SureKeeper;
use std::alloc::Global;
use std::test::Fail;
use std::thread::Threads;

pub const ISSUER: &str = "506700GE1G29325QX363";

/// Another issuer.
pub const OTHER: &str = "HWUPKR0MPOU8FGXBT394";

/// 2025-01-11T00:00:00Z.
pub const MOMENT: i64 = 1_736_553_600;

// An upload of records in their compact form, with their names in byte order. Each has its name, its number at its
// authority, its LEI and the manager of its record. Then come the status of its entity, a field for its successors if
// it has any, the status of its registration, and what follows it.
macro_rules! upload {
    ($([$name:literal $number:literal $lei:literal $manager:literal
        $entity:literal $successor:literal $status:literal $after:literal])*) => {
        concat!(
            r#"{"records":["#,
            $(
                r#"{"Entity.EntityCategory":"GENERAL","Entity.EntityStatus":""#, $entity,
                r#"","Entity.HeadquartersAddress.City":"Paris","Entity.HeadquartersAddress.Country":"FR","#,
                r#""Entity.HeadquartersAddress.FirstAddressLine":"1 Main Street","#,
                r#""Entity.LegalAddress.City":"Paris","Entity.LegalAddress.Country":"FR","#,
                r#""Entity.LegalAddress.FirstAddressLine":"1 Main Street","#,
                r#""Entity.LegalForm.EntityLegalFormCode":"AB12","Entity.LegalJurisdiction":"FR","#,
                r#""Entity.LegalName":""#, $name,
                r#"","Entity.RegistrationAuthority.RegistrationAuthorityEntityID":""#, $number,
                r#"","Entity.RegistrationAuthority.RegistrationAuthorityID":"RA000001""#, $successor,
                r#","LEI":""#, $lei,
                r#"","Registration.InitialRegistrationDate":"2025-01-10T09:00:00Z","#,
                r#""Registration.LastUpdateDate":"2025-01-10T09:00:00Z","#,
                r#""Registration.ManagingLOU":""#, $manager,
                r#"","Registration.NextRenewalDate":"2026-01-10T09:00:00Z","#,
                r#""Registration.RegistrationStatus":""#, $status,
                r#"","Registration.ValidationSources":"FULLY_CORROBORATED"}"#, $after
            ),*
        )
    };
}

/// An upload of one record.
pub const ONE_RECORD: &str =
    upload!(["Alpha" "1001" "00000000000000000195" "506700GE1G29325QX363" "ACTIVE" "" "ISSUED" "]}"]);

/// An upload of two records.
pub const TWO_RECORDS: &str = upload!(
    ["Alpha" "1001" "00000000000000000195" "506700GE1G29325QX363" "ACTIVE" "" "ISSUED" ","]
    ["Beta" "1002" "00000000000000000292" "506700GE1G29325QX363" "ACTIVE" "" "ISSUED" "]}"]
);

/// An upload of a second record.
pub const SECOND_RECORD: &str =
    upload!(["Beta" "1002" "00000000000000000292" "506700GE1G29325QX363" "ACTIVE" "" "ISSUED" "]}"]);

/// An upload of that record by another issuer.
pub const SECOND_OF_OTHER: &str =
    upload!(["Beta" "1002" "00000000000000000292" "HWUPKR0MPOU8FGXBT394" "ACTIVE" "" "ISSUED" "]}"]);

/// An upload of a third record by another issuer, with the authority key of the second.
pub const SAME_KEY_OF_OTHER: &str =
    upload!(["Gamma" "1002" "00000000000000000389" "HWUPKR0MPOU8FGXBT394" "ACTIVE" "" "ISSUED" "]}"]);

/// An upload that retires the first record with the second as its successor, and sends the second, which another issuer
/// manages.
pub const RETIRES_FIRST: &str = upload!(
    ["Alpha" "1001" "00000000000000000195" "506700GE1G29325QX363" "INACTIVE"
        r#","Entity.SuccessorEntity.1.SuccessorLEI":"00000000000000000292""# "RETIRED" ","]
    ["Beta" "1002" "00000000000000000292" "506700GE1G29325QX363" "ACTIVE" "" "ISSUED" "]}"]
);

/// An upload by another issuer that retires the second record with the first as its successor.
pub const RETIRES_SECOND: &str = upload!(
    ["Beta" "1002" "00000000000000000292" "HWUPKR0MPOU8FGXBT394" "INACTIVE"
        r#","Entity.SuccessorEntity.1.SuccessorLEI":"00000000000000000195""# "RETIRED" "]}"]
);

/// What is sent.
#[derive(Clone, Copy)]
pub enum Sent {
    /// The issuer to accredit.
    Accredit(&'static str),
    /// The number of an upload of [`ISSUER`], and its body.
    Upload(u32, &'static str),
    /// The number of an upload of [`OTHER`], and its body.
    UploadOfOther(u32, &'static str),
    /// The number of a publication.
    Publish(u32),
}

/// What is sent, and the status code and the words of the reply.
pub type Step = (Sent, u16, &'static str);

const ONE_ITEM: &str = r#"{"records":[{"LEI":"00000000000000000195"}]}"#;

const KEPT: &str =
    r#"{"entry":2,"issuer":"506700GE1G29325QX363","items":["C02 FIELD_MISSING Entity.LegalName"],"number":1}"#;

const KEEPS_NOTHING: [Step; 2] = [
    ACCREDITED,
    (Sent::Upload(1, TWO_RECORDS), 507, "LEDGER_FULL"),
];

const TAKES_ONE: [Step; 4] = [
    ACCREDITED,
    (
        Sent::Upload(1, TWO_RECORDS),
        200,
        r#"{"entry":2,"issuer":"506700GE1G29325QX363","items":["ACCEPTED","C20 REGISTER_FULL"],"number":1}"#,
    ),
    (
        Sent::Publish(1),
        201,
        r#"{"contentDate":"2025-01-11T00:00:00Z","entry":3,"lei":1,"publication":1,"repex":0,"rr":0}"#,
    ),
    (Sent::Publish(2), 507, "LEDGER_FULL"),
];

const KEEPS_44: [Step; 7] = [
    ACCREDITED,
    (Sent::Upload(1, TWO_RECORDS), 507, "LEDGER_FULL"),
    (Sent::Upload(1, ONE_ITEM), 200, KEPT),
    (Sent::Upload(2, ONE_ITEM), 507, "LEDGER_FULL"),
    (Sent::Upload(2, "{}"), 400, "MALFORMED NO_ITEMS"),
    (Sent::Upload(1, "{}"), 409, "NUMBER_TAKEN"),
    (Sent::Upload(1, ONE_ITEM), 200, KEPT),
];

const READS_43: [Step; 2] = [ACCREDITED, (Sent::Upload(1, ONE_ITEM), 413, "TOO_LONG")];

const HAS_TWO_ENTRIES: [Step; 6] = [
    ACCREDITED,
    OTHER_ACCREDITED,
    (Sent::Accredit("5493001KJTIIGC8Y1R12"), 507, "LEDGER_FULL"),
    ACCREDITED,
    (Sent::Upload(1, ONE_ITEM), 507, "LEDGER_FULL"),
    (Sent::Publish(1), 507, "LEDGER_FULL"),
];

// The request of a step.
fn request(alloc: Global, sent: Sent) -> Option<Request> {
    match sent {
        Sent::Accredit(issuer) => Some(Request::Accredit(code(issuer)?)),
        Sent::Upload(number, body) => Some(Request::Upload(call(alloc, number, body)?)),
        Sent::UploadOfOther(number, body) => {
            Some(Request::Upload(call_of(alloc, OTHER, number, body)?))
        }
        Sent::Publish(number) => Some(Request::Publish(number)),
    }
}

/// The code that a text is.
pub fn code(text: &str) -> Option<Lei> {
    match Lei::read(text.as_bytes()) {
        Ok(code) => Some(code),
        Err(_) => None,
    }
}

/// An upload of [`ISSUER`] with this number and body.
pub fn call(alloc: Global, number: u32, body: &str) -> Option<Call>
    ensures { IfSome result (λ call. call.number ≡ number) }
{
    call_of(alloc, ISSUER, number, body)
}

/// An upload of an issuer with this number and body.
pub fn call_of(alloc: Global, issuer: &str, number: u32, body: &str) -> Option<Call>
    ensures { IfSome result (λ call. call.number ≡ number) }
{
    let office = code(issuer)?;
    match Shared::copy_of(alloc, body.as_bytes()) {
        Ok(body) => Some(Call {
            office,
            number,
            body,
        }),
        Err(NoMemory) => None,
    }
}

fn is_wanted(reply: &Reply, code: u16, words: &str) -> bool {
    let told = match reply {
        Reply::Text { text, .. } => text.as_slice(),
        Reply::Words(refusal) => refusal.name().as_bytes(),
    };
    reply.status_code() == code && told == words.as_bytes()
}

// The reply to a request. Its number is one that uploads may have.
fn reply_of<R: Threads + Sync, K: Keeper>(
    rt: &R,
    office: &mut Office<K>,
    request: &Request,
) -> Option<Reply> {
    let number = match request {
        Request::Upload(call) => call.number,
        Request::Kept(_, number) | Request::Publish(number) => *number,
        Request::Accredit(_)
        | Request::Show(_)
        | Request::Copy(_, _)
        | Request::Delta(_, _, _)
        | Request::Status => 1,
    };
    if !is_upload_number(number) {
        return None;
    }
    let moment = Moment::of(MOMENT)?;
    Some(office.answer(rt, request, moment))
}

fn takes<R: Threads + Sync, K: Keeper>(
    rt: &R,
    alloc: Global,
    office: &mut Office<K>,
    step: Step,
) -> bool {
    let (sent, code, words) = step;
    match request(alloc, sent) {
        Some(request) => match reply_of(rt, office, &request) {
            Some(reply) => is_wanted(&reply, code, words),
            None => false,
        },
        None => false,
    }
}

/// Whether each step in turn gets the stated answer.
pub fn takes_all<R: Threads + Sync, K: Keeper>(
    rt: &R,
    alloc: Global,
    office: &mut Office<K>,
    steps: &[Step],
) -> bool {
    for step in steps {
        if !takes(rt, alloc, office, *step) {
            return false;
        }
    }
    true
}

// Whether an office under these limits gives these answers to the steps. It is closed, since dropping it costs a proof
// for each of its parts.
fn answers<R: Threads + Sync>(rt: &R, alloc: Global, limits: Limits, steps: &[Step]) -> bool
    requires { AreLimits limits }
{
    match Office::open(rt, alloc, SureKeeper::new(alloc), limits) {
        Ok(mut office) => {
            let went = takes_all(rt, alloc, &mut office, steps);
            let _ = office.close();
            went
        }
        Err(_) => false,
    }
}

/// The accreditation of [`ISSUER`].
pub const ACCREDITED: Step = (
    Sent::Accredit(ISSUER),
    200,
    r#"{"entry":1,"issuer":"506700GE1G29325QX363"}"#,
);

/// The accreditation of [`OTHER`] after it.
pub const OTHER_ACCREDITED: Step = (
    Sent::Accredit(OTHER),
    200,
    r#"{"entry":2,"issuer":"HWUPKR0MPOU8FGXBT394"}"#,
);

// The first limits have no room for the body of two records, which has more than 1,200 bytes, and the next have room
// for one of the records. Under the third a body may have 44 bytes, as many as the only upload has, and under the
// fourth one fewer. The last have room for two entries.
#[test]
fn an_office_takes_what_its_limits_have_room_for(rt: HostRuntime) {
    let few = Limits {
        body: 4_194_304,
        kept: 1_200,
        entries: 3,
        records: 1,
    };
    assert!(rt; answers(&rt, rt.alloc(), few, &KEEPS_NOTHING));
    let more = Limits {
        kept: 100_000,
        ..few
    };
    assert!(rt; answers(&rt, rt.alloc(), more, &TAKES_ONE));
    let room = Limits {
        body: 2_000,
        kept: 44,
        entries: 3,
        records: 1,
    };
    assert!(rt; answers(&rt, rt.alloc(), room, &KEEPS_44));
    let shorter = Limits { body: 43, ..room };
    assert!(rt; answers(&rt, rt.alloc(), shorter, &READS_43));
    let two = Limits {
        body: 2_000,
        kept: 2_000,
        entries: 2,
        records: 1,
    };
    assert!(rt; answers(&rt, rt.alloc(), two, &HAS_TWO_ENTRIES));
}
