//! A record that moves from one issuer to another, as a session over any keeper.
use crate::runs::run_over;
use lei_keeper::Keeper;
use std::alloc::Global;
use std::thread::Threads;

// Three issuers are accredited. Then each upload is given by its issuer and number. For its only record, the manager
// and the status are given, and the issuer that is to receive the record, if there is one.
macro_rules! session {
    ($([$issuer:literal $number:literal $manager:literal $status:literal $receiver:literal])*) => {
        concat!(
            "ACCREDIT 506700GE1G29325QX363\n",
            "ACCREDIT HWUPKR0MPOU8FGXBT394\n",
            "ACCREDIT 5493001KJTIIGC8Y1R12\n",
            $(
                "UPLOAD ", $issuer, " ", $number,
                r#" {"records":[{"Entity.EntityCategory":"GENERAL","Entity.EntityStatus":"ACTIVE","#,
                r#""Entity.HeadquartersAddress.City":"Paris","Entity.HeadquartersAddress.Country":"FR","#,
                r#""Entity.HeadquartersAddress.FirstAddressLine":"1 Main Street","#,
                r#""Entity.LegalAddress.City":"Paris","Entity.LegalAddress.Country":"FR","#,
                r#""Entity.LegalAddress.FirstAddressLine":"1 Main Street","#,
                r#""Entity.LegalForm.EntityLegalFormCode":"AB12","Entity.LegalJurisdiction":"FR","#,
                r#""Entity.LegalName":"Alpha","#,
                r#""Entity.RegistrationAuthority.RegistrationAuthorityEntityID":"1001","#,
                r#""Entity.RegistrationAuthority.RegistrationAuthorityID":"RA000001","#,
                r#""LEI":"00000000000000000195","#,
                r#""Registration.InitialRegistrationDate":"2025-01-10T09:00:00Z","#,
                r#""Registration.LastUpdateDate":"2025-01-10T09:00:00Z","#,
                r#""Registration.ManagingLOU":""#, $manager,
                r#"","Registration.NextRenewalDate":"2026-01-10T09:00:00Z","#,
                r#""Registration.RegistrationStatus":""#, $status,
                r#"","Registration.ValidationSources":"FULLY_CORROBORATED""#, $receiver, "}]}\n"
            ),*
        )
    };
}

const LINES: &str = session!(
    ["506700GE1G29325QX363" "1" "506700GE1G29325QX363" "ISSUED" ""]
    ["506700GE1G29325QX363" "2" "506700GE1G29325QX363" "PENDING_TRANSFER" ""]
    ["506700GE1G29325QX363" "3" "506700GE1G29325QX363" "PENDING_ARCHIVAL"
        r#","Register.TransferTo":"HWUPKR0MPOU8FGXBT394""#]
    ["5493001KJTIIGC8Y1R12" "1" "5493001KJTIIGC8Y1R12" "ISSUED" ""]
    ["HWUPKR0MPOU8FGXBT394" "1" "HWUPKR0MPOU8FGXBT394" "ISSUED" ""]
    ["506700GE1G29325QX363" "4" "506700GE1G29325QX363" "ISSUED" ""]
);

const REPLIES: &str = r#"200 {"entry":1,"issuer":"506700GE1G29325QX363"}
200 {"entry":2,"issuer":"HWUPKR0MPOU8FGXBT394"}
200 {"entry":3,"issuer":"5493001KJTIIGC8Y1R12"}
200 {"entry":4,"issuer":"506700GE1G29325QX363","items":["ACCEPTED"],"number":1}
200 {"entry":5,"issuer":"506700GE1G29325QX363","items":["ACCEPTED"],"number":2}
200 {"entry":6,"issuer":"506700GE1G29325QX363","items":["ACCEPTED"],"number":3}
200 {"entry":7,"issuer":"5493001KJTIIGC8Y1R12","items":["C12 NOT_MANAGER"],"number":1}
200 {"entry":8,"issuer":"HWUPKR0MPOU8FGXBT394","items":["ACCEPTED"],"number":1}
200 {"entry":9,"issuer":"506700GE1G29325QX363","items":["C12 NOT_MANAGER"],"number":4}
"#;

/// How a run of the session over a keeper ended.
#[derive(Clone, Copy)]
pub struct Course {
    /// The status of the run.
    pub status: u8,
    /// How many entries were acknowledged: the number of replies before the first one that isn't 200.
    pub acknowledged: u64,
    /// Each line got the correct answer.
    pub is_whole: bool,
}

/// Runs the session over a keeper, and returns the keeper.
pub fn transfer<R: Threads + Sync, K: Keeper + Drop>(
    rt: &R,
    alloc: Global,
    keeper: K,
) -> Option<(Course, K)> {
    let (output, keeper) = run_over(rt, alloc, LINES.as_bytes(), keeper)?;
    Some((course_of(output.status, output.written()), keeper))
}

/// The first lines of the session, as many as this.
pub fn first_lines(count: usize) -> &'static [u8] {
    let mut end: usize = 0;
    for line in LINES.lines().take(count) {
        end = end.saturating_add(line.len()).saturating_add(1);
    }
    LINES.as_bytes().get(..end).unwrap_or(&[])
}

fn course_of(status: u8, written: &[u8]) -> Course {
    Course {
        status,
        acknowledged: acknowledged_count(written),
        is_whole: written == REPLIES.as_bytes(),
    }
}

// How many lines of replies start with 200, up to the first that doesn't.
fn acknowledged_count(written: &[u8]) -> u64 {
    let mut count: u64 = 0;
    for line in written.split(|byte: &u8| -> bool { *byte == b'\n' }) {
        if !line.starts_with(b"200 ") {
            return count;
        }
        count = count.saturating_add(1);
    }
    count
}
