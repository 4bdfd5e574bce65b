//! What the texts of the crates `http` and `matchit` amount to here. Each law is proved, and its function does nothing.
ghost use Rattle.std.specs.Prelude.{◌≡◌, codes, map};
ghost use Rattle.http_heads.specs.Laws.{row_of_route, rows_in_order};
ghost use Rattle.http_heads.specs.Responses.{phrase_of};
ghost use Rattle.http_heads.specs.Routes.{routes};

/// The phrases of the status codes that the register answers with are those of RFC 9110, with three exceptions: 413 has
/// the phrase of RFC 7231, 431 is added by RFC 6585, and 507 by RFC 4918.
pub fn phrases_are_standard()
    ensures ok { phrase_of 200 ≡ codes "OK" }
    ensures created { phrase_of 201 ≡ codes "Created" }
    ensures bad_request { phrase_of 400 ≡ codes "Bad Request" }
    ensures not_found { phrase_of 404 ≡ codes "Not Found" }
    ensures method_not_allowed { phrase_of 405 ≡ codes "Method Not Allowed" }
    ensures conflict { phrase_of 409 ≡ codes "Conflict" }
    ensures length_required { phrase_of 411 ≡ codes "Length Required" }
    ensures payload_too_large { phrase_of 413 ≡ codes "Payload Too Large" }
    ensures fields_too_large { phrase_of 431 ≡ codes "Request Header Fields Too Large" }
    ensures server_error { phrase_of 500 ≡ codes "Internal Server Error" }
    ensures unavailable { phrase_of 503 ≡ codes "Service Unavailable" }
    ensures insufficient_storage { phrase_of 507 ≡ codes "Insufficient Storage" }
{}

/// The router has these paths, each with the names of its parameters and the place that it leads to, and no others.
#[tactic(auto, unfolding(crate::specs::Routes::routes, crate::specs::Routes::with_route, matchit::proofs::OnLiterals::matchit_on_literals))]
pub fn routes_have_these_paths()
    ensures { map row_of_route routes ≡ rows_in_order }
{}
