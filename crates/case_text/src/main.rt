// Runs the header's and the tokens' cases that document 01 singles out.
#![tactic(auto)]

use basis::MAX_LITERAL_BYTES;
use std::io::Stdout;
use text_header::Heading;
use text_tokens::tokens::token_at;
use text_tokens::{Kind, Token};

fn text(out: Stdout, bytes: &[u8]) {
    let _ = out.write_all(bytes);
}

fn natural(out: Stdout, n: u64) {
    let _ = out.print(n);
}

fn headed(out: Stdout, label: &[u8], bytes: &[u8]) {
    text(out, label);
    match text_header::header::header(bytes) {
        Heading::Rules(at) => {
            text(out, b": rules at ");
            natural(out, at as u64);
        }
        Heading::Wrong(at) => {
            text(out, b": 3 at ");
            natural(out, at as u64);
        }
    }
    text(out, b"\n");
}

// A number with its value.
fn number(out: Stdout, rules: &[u8], at: usize) {
    if at < rules.len() {
        natural(out, text_tokens::numbers::number_at(rules, at));
    }
}

fn character(out: Stdout, c: u8) {
    text(out, b" ");
    natural(out, c as u64);
}

// A literal with its characters.
fn literal(out: Stdout, rules: &[u8], at: usize) {
    text(out, b"literal");
    if at < rules.len() {
        let mut bytes = [0u8; MAX_LITERAL_BYTES];
        text_literals::spell(rules, at, &mut bytes);
        for c in bytes.iter().take(text_literals::count_at(rules, at)) {
            character(out, *c);
        }
    }
}

// A name; a reserved word with its number.
fn name(out: Stdout, rules: &[u8], start: usize, end: usize) {
    text(out, b"name");
    if start <= end && end <= rules.len() {
        let word = text_tokens::names::reserved(&rules[start..end]);
        if 0 < word {
            text(out, b" reserved ");
            natural(out, word as u64);
        }
    }
}

fn described(out: Stdout, rules: &[u8], token: Token) {
    match token.kind {
        Kind::Name => name(out, rules, token.start, token.end),
        Kind::Number => number(out, rules, token.start),
        Kind::Literal => literal(out, rules, token.start),
        Kind::Fault => text(out, b"fault"),
        Kind::End => text(out, b"end"),
        Kind::Equal => text(out, b"="),
        Kind::Semicolon => text(out, b";"),
        Kind::Bar => text(out, b"|"),
        Kind::Ampersand => text(out, b"&"),
        Kind::OpenParen => text(out, b"("),
        Kind::CloseParen => text(out, b")"),
        Kind::OpenBracket => text(out, b"["),
        Kind::CloseBracket => text(out, b"]"),
        Kind::OpenBrace => text(out, b"{"),
        Kind::CloseBrace => text(out, b"}"),
        Kind::Question => text(out, b"?"),
        Kind::Star => text(out, b"*"),
        Kind::Plus => text(out, b"+"),
        Kind::Minus => text(out, b"-"),
        Kind::Tilde => text(out, b"~"),
        Kind::Bang => text(out, b"!"),
        Kind::Comma => text(out, b","),
        Kind::Colon => text(out, b":"),
        Kind::Less => text(out, b"<"),
        Kind::Greater => text(out, b">"),
        Kind::Unequal => text(out, b"!="),
        Kind::AtMost => text(out, b"<="),
        Kind::AtLeast => text(out, b">="),
    }
}

fn listed(out: Stdout, label: &[u8], rules: &[u8]) {
    text(out, label);
    let mut at = 0;
    for _ in 0..40usize {
        let token = token_at(rules, at);
        let start = token.start;
        let end = token.end;
        text(out, b"\n    ");
        natural(out, start as u64);
        text(out, b" ");
        described(out, rules, token);
        if end == start {
            break;
        }
        at = end;
    }
    text(out, b"\n");
}

fn shown(out: Stdout, rules: &[u8]) {
    listed(out, rules, rules);
}

fn headers_a(out: Stdout) {
    headed(out, b"K1 to K11", b"dogma_v1 utf-8\n\nframe");
    headed(
        out,
        b"a tab and spaces, any letter case",
        b"dogma_v1 \t Utf-8\n\n",
    );
    headed(out, b"CR LF", b"dogma_v1 utf-8\r\n\r\nframe");
    headed(
        out,
        b"header lines",
        b"dogma_v1 utf-8\n- name=value\n-\tother\t=\t\n\nframe",
    );
    headed(
        out,
        b"two blanks, the second is the name",
        b"dogma_v1 utf-8\n-  =b\n\n",
    );
}

fn headers_b(out: Stdout) {
    headed(out, b"the value holds =", b"dogma_v1 utf-8\n- a=b=c\n\n");
    headed(out, b"the value is one blank", b"dogma_v1 utf-8\n- a= \n\n");
    headed(out, b"no name", b"dogma_v1 utf-8\n- =b\n\n");
    headed(out, b"no blank after -", b"dogma_v1 utf-8\n-a=b\n\n");
    headed(out, b"no value", b"dogma_v1 utf-8\n- a=\n\n");
}

fn headers_c(out: Stdout) {
    headed(out, b"no =", b"dogma_v1 utf-8\n- a\n\n");
    headed(out, b"a blank after utf-8", b"dogma_v1 utf-8 \n\n");
    headed(out, b"a blank before dogma_v1", b" dogma_v1 utf-8\n\n");
    headed(out, b"a byte order mark", b"\xef\xbb\xbfdogma_v1 utf-8\n\n");
    headed(out, b"another case of dogma_v1", b"Dogma_v1 utf-8\n\n");
}

fn headers_d(out: Stdout) {
    headed(out, b"no blank in the first line", b"dogma_v1utf-8\n\n");
    headed(out, b"another encoding", b"dogma_v1 utf-16\n\n");
    headed(out, b"a CR inside a line", b"dogma_v1 utf-8\n- a=b\rc\n\n");
    headed(out, b"two CRs before LF", b"dogma_v1 utf-8\r\r\n\n");
    headed(out, b"a line of blanks", b"dogma_v1 utf-8\n  \n\n");
}

fn headers_e(out: Stdout) {
    headed(out, b"a comment", b"dogma_v1 utf-8\n# a=b\n\n");
    headed(out, b"7f in a value", b"dogma_v1 utf-8\n- a=\x7f\n\n");
    headed(
        out,
        b"a byte over 7e in a name",
        b"dogma_v1 utf-8\n- \xc3=b\n\n",
    );
    headed(out, b"no LF", b"dogma_v1 utf-8");
    headed(out, b"the text ends in the header", b"dogma_v1 utf-8\n");
}

fn headers_f(out: Stdout) {
    headed(
        out,
        b"the text ends after a header line",
        b"dogma_v1 utf-8\n- a=b\n",
    );
    headed(out, b"a header line with no LF", b"dogma_v1 utf-8\n- a=b");
    headed(out, b"a last lone CR", b"dogma_v1 utf-8\n\r");
    headed(out, b"nothing", b"");
    headed(out, b"an empty line first", b"\ndogma_v1 utf-8\n\n");
}

fn headers_g(out: Stdout) {
    headed(out, b"nothing after the header", b"dogma_v1 utf-8\n\n");
}

fn tokens_a(out: Stdout) {
    shown(out, b"frame = uint(8, var(len, 1~8)) & uint(8, ~){len};");
    shown(out, b"n < = 1");
    shown(out, b"n ! = 1");
    shown(out, b"1 !=2");
    shown(out, b"<=>=!==<>!");
}

fn tokens_b(out: Stdout) {
    shown(out, b"= ; | & ( ) [ ] { } ? * + - ~ ! , : < > != <= >=");
    shown(out, b"@");
    shown(out, b"/");
    shown(out, b".");
    shown(out, b"_a");
}

fn tokens_c(out: Stdout) {
    shown(out, b"\\");
    listed(out, b"NUL", b"\x00");
    listed(out, b"7f", b"\x7f");
    listed(out, b"80", b"\x80");
    listed(out, b"form feed", b"\x0c");
}

fn tokens_d(out: Stdout) {
    listed(
        out,
        b"a comment with any byte and a lone CR, ended by LF",
        b"a # = \x00 \x80 \r b\nc",
    );
    listed(out, b"a comment that the text ends", b"a#b");
    listed(out, b"separators", b" \t\r\na\rb ");
    listed(out, b"nothing", b"");
    listed(out, b"nothing but a comment", b"  # only a comment");
}

fn tokens_e(out: Stdout) {
    shown(out, b"0x)");
    shown(out, b"0b12");
    shown(out, b"12ab");
    shown(out, b"0X1f 0O17 0B101 0xAbC 007 0x0001");
    shown(out, b"0o8 0b 00x1");
}

fn tokens_f(out: Stdout) {
    shown(out, b"4294967295 4294967296");
    shown(
        out,
        b"4611686018427387904 4611686018427387905 99999999999999999999999999",
    );
    shown(out, b"'a' \"b\" 'it\"s' \"it's\"");
    shown(out, b"'' \"\" x");
    shown(
        out,
        b"'12345678901234567890123456789012' '123456789012345678901234567890123' x",
    );
}

fn tokens_g(out: Stdout) {
    shown(out, b"'abc");
    listed(out, b"LF in a literal", b"'a\nb'");
    listed(out, b"a control byte in a literal", b"'a\x01b'");
    listed(out, b"7f in a literal", b"'a\x7f'");
    listed(out, b"not ASCII in a literal", b"'\xc3\xa9'");
}

fn tokens_h(out: Stdout) {
    shown(out, b"'\\n' x");
    shown(out, b"'\\[]' x");
    shown(out, b"'\\[80]' x");
    shown(out, b"'\\[7f]\\[0]\\[00041]\\[4A]\\[4a]'");
    shown(out, b"'\\\\\\'\\\"'");
}

fn tokens_i(out: Stdout) {
    shown(out, b"'\\[41'");
    shown(out, b"'a\\'");
    shown(
        out,
        b"a2345678901234567890123456789012 a23456789012345678901234567890123 b",
    );
    shown(
        out,
        b"uint var eod sized lsb msb unicode_categories uints Uint",
    );
}

fn main(rt: HostRuntime) {
    let out = rt.stdout();
    headers_a(out);
    headers_b(out);
    headers_c(out);
    headers_d(out);
    headers_e(out);
    headers_f(out);
    headers_g(out);
    tokens_a(out);
    tokens_b(out);
    tokens_c(out);
    tokens_d(out);
    tokens_e(out);
    tokens_f(out);
    tokens_g(out);
    tokens_h(out);
    tokens_i(out);
}
