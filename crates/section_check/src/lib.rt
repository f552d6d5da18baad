// Whether a section is sound: the numbers 12 to 19 of document 01, in its order, and 24 of document 02 at 15's place, for every slice of every
// length. Form and slice stay two parameters: the form is a type of another crate, and a struct of the two would be no plainer.
#![tactic(auto)]

ghost use Rattle.std.specs.Prelude.{◌≡◌};
ghost use Rattle.wire.specs.Choice.{first_of};
ghost use Rattle.rules.specs.Check.{too_short, other_table, wrong_length, checksum_form, wrong_syntax, wrong_crc, not_current, out_of_order, address_scrambled, form_lines, order_lines, shared_refusal, check};
ghost use Rattle.rules.specs.Told.{refusal_number};

use rules::{Form, Refusal};
use section_fields::{
    address_scrambling_control, checked, crc_field, current_next_indicator, last_section_number,
    private_indicator, section_length, section_number, section_syntax_indicator, table_id,
};

#[tactic(auto, unfolding(rules::specs::Check::too_short))]
fn too_short(form: Form, s: &[u8]) -> bool
    ensures { result ≡ too_short form s.now }
{
    s.len() < form.fewest
}

#[tactic(auto, unfolding(rules::specs::Check::other_table))]
fn other_table(form: Form, s: &[u8]) -> bool
    ensures { result ≡ other_table form s.now }
{
    table_id(s) != form.table
}

#[tactic(auto, unfolding(rules::specs::Check::wrong_length, wire::specs::Choice::either))]
fn wrong_length(s: &[u8]) -> bool
    ensures { result ≡ wrong_length s.now }
{
    let n = section_length(s);
    4093 < n || n + 3 != s.len()
}

#[tactic(auto, unfolding(rules::specs::Check::checksum_form, wire::specs::Choice::both))]
fn checksum_form(form: Form, s: &[u8]) -> bool
    ensures { result ≡ checksum_form form s.now }
{
    form.private && section_syntax_indicator(s) == 0 && private_indicator(s) == 1
}

#[tactic(auto, unfolding(rules::specs::Check::wrong_syntax, wire::specs::Choice::both, wire::specs::Choice::either))]
fn wrong_syntax(form: Form, s: &[u8]) -> bool
    ensures { result ≡ wrong_syntax form s.now }
{
    section_syntax_indicator(s) != 1 || form.private && private_indicator(s) != 0
}

#[tactic(auto, unfolding(rules::specs::Check::wrong_crc))]
fn wrong_crc(s: &[u8]) -> bool
    ensures { result ≡ wrong_crc s.now }
{
    crc_field(s) != crc::crc_32(checked(s)) as usize
}

#[tactic(auto, unfolding(rules::specs::Check::not_current))]
fn not_current(s: &[u8]) -> bool
    ensures { result ≡ not_current s.now }
{
    current_next_indicator(s) == 0
}

#[tactic(auto, unfolding(rules::specs::Check::out_of_order))]
fn out_of_order(s: &[u8]) -> bool
    ensures { result ≡ out_of_order s.now }
{
    last_section_number(s) < section_number(s)
}

#[tactic(auto, unfolding(rules::specs::Check::address_scrambled))]
fn address_scrambled(s: &[u8]) -> bool
    ensures { result ≡ address_scrambled s.now }
{
    address_scrambling_control(s) != 0
}

// The first of 12, 13, 14, 24 and 15 that applies.
#[tactic(auto, unfolding(rules::specs::Told::number, rules::specs::Told::refusal_number, rules::specs::Check::form_lines, wire::specs::Choice::first_of, wire::specs::Choice::first))]
fn form_refusal(form: Form, s: &[u8]) -> Result<(), Refusal>
    ensures { refusal_number result ≡ first_of (form_lines form s.now) }
{
    if too_short(form, s) {
        return Err(Refusal::TooShort);
    }
    if other_table(form, s) {
        return Err(Refusal::TableId);
    }
    if wrong_length(s) {
        return Err(Refusal::SectionLength);
    }
    if checksum_form(form, s) {
        return Err(Refusal::ChecksumForm);
    }
    if wrong_syntax(form, s) {
        return Err(Refusal::Indicators);
    }
    Ok(())
}

// The first of 17 and 18 that applies.
#[tactic(auto, unfolding(rules::specs::Told::number, rules::specs::Told::refusal_number, rules::specs::Check::order_lines, wire::specs::Choice::first_of, wire::specs::Choice::first))]
fn order_refusal(s: &[u8]) -> Result<(), Refusal>
    ensures { refusal_number result ≡ first_of (order_lines s.now) }
{
    if not_current(s) {
        return Err(Refusal::CurrentNextIndicator);
    }
    if out_of_order(s) {
        return Err(Refusal::SectionNumber);
    }
    Ok(())
}

// The first of 12 to 18 and 24 that applies to a section of this form. The CRC_32 is computed only where 12 to 15 and 24 leave it to: in the
// checksum form there is none, and the last four bytes are not looked at.
#[tactic(auto, unfolding(rules::specs::Told::number, rules::specs::Told::refusal_number, rules::specs::Check::shared_refusal, rules::specs::Check::shared_lines, wire::specs::Choice::first_of, wire::specs::Choice::first), using(wire::proofs::Choice::first_of_here, wire::proofs::Choice::first_of_past, rules::proofs::Check::form_numbered, rules::proofs::Told::numbered))]
pub fn shared_refusal(form: Form, s: &[u8]) -> Result<(), Refusal>
    ensures { refusal_number result ≡ shared_refusal form s.now }
{
    form_refusal(form, s)?;
    if wrong_crc(s) {
        return Err(Refusal::Crc32);
    }
    order_refusal(s)
}

// The datagram section's form.
const DATAGRAM: Form = Form {
    fewest: 16,
    table: 0x3e,
    private: true,
};

// The first of 12 to 19 and 24 that applies to a datagram section.
#[tactic(auto, unfolding(rules::specs::Told::number, rules::specs::Told::refusal_number, rules::specs::Check::shared_refusal, rules::specs::Check::check_lines, rules::specs::Check::check, wire::specs::Choice::first_of, wire::specs::Choice::first), using(wire::proofs::Choice::first_of_here, wire::proofs::Choice::first_of_past, rules::proofs::Check::shared_numbered, rules::proofs::Told::numbered))]
pub fn check(s: &[u8]) -> Result<(), Refusal>
    ensures { refusal_number result ≡ check s.now }
{
    shared_refusal(DATAGRAM, s)?;
    if address_scrambled(s) {
        return Err(Refusal::AddressScrambling);
    }
    Ok(())
}
