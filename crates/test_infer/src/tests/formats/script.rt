use infer_formats::script::program;

#[test]
fn programs(rt: HostRuntime) {
    let cases: [(&[u8], &[u8], bool); 36] = [
        (b"#!python\n", b"python", true),
        (b"#!python", b"python", false),
        (b"#!_ython\n", b"python", false),
        (b"#!/usr/bin/env python\n", b"python", true),
        (b"#!/usr/bin/env -S A=b python -u\n", b"python", true),
        (b"#!/usr/bin/python3.11\r\n", b"python", true),
        (b"#!/bin/sh\npython\n", b"python", false),
        (b"#!/bin/sh python\n", b"python", false),
        (b"#!/usr/bin/env\npython\n", b"python", false),
        (b"#!/bin/PYTHON\n", b"python", false),
        (b"#!/bin/python/\n", b"python", false),
        (b"#!python\r", b"python", true),
        (b"#!/bin/python\t", b"python", true),
        (b"#!pypy\n", b"pypy", true),
        (b"#!pypy", b"pypy", false),
        (b"#!perl\n", b"perl", true),
        (b"#!/usr/bin/env -S A=b perl -u\n", b"perl", true),
        (b"#!ruby\n", b"ruby", true),
        (b"#!/usr/bin/env -S A=b ruby -u\n", b"ruby", true),
        (b"#!jruby\n", b"jruby", true),
        (b"#!node\n", b"node", true),
        (b"#!/usr/bin/env -S A=b node -u\n", b"node", true),
        (b"#!nodejs\n", b"nodejs", true),
        (b"#!deno\n", b"deno", true),
        (b"#!php\n", b"php", true),
        (b"#!/usr/bin/env -S A=b php -u\n", b"php", true),
        (b"#!lua\n", b"lua", true),
        (b"#!/usr/bin/env -S A=b lua -u\n", b"lua", true),
        (b"#!luajit\n", b"luajit", true),
        (b"#!awk\n", b"awk", true),
        (b"#!/usr/bin/env -S A=b awk -u\n", b"awk", true),
        (b"#!gawk\n", b"gawk", true),
        (b"#!nawk\n", b"nawk", true),
        (b"#!tclsh\n", b"tclsh", true),
        (b"#!/usr/bin/env -S A=b tclsh -u\n", b"tclsh", true),
        (b"#!wish\n", b"wish", true),
    ];
    for (buf, name, expected) in cases {
        assert_eq!(rt; program(buf) == Some(name), expected);
    }
}

/// Of what no program of another hand answered, by the rule alone.

#[test]
fn first_lines(rt: HostRuntime) {
    let cases: [(&[u8], Option<&[u8]>); 12] = [
        (b"", None),
        (b"#!", None),
        (b"#!\n", None),
        (b"#! \t sh\n", Some(b"sh")),
        (b"#!env a=b -i c=d\n", None),
        (b"#!env/ perl\n", Some(b"")),
        (b"#!env env perl\n", Some(b"env")),
        (b"#!env2 perl\n", Some(b"env")),
        (b"#!a/b.c3.1. d\n", Some(b"b.c")),
        (b"#!/bin/7\n", Some(b"")),
        (b"#!sh a", Some(b"sh")),
        (b"#!env sh", None),
    ];
    for (buf, expected) in cases {
        assert_eq!(rt; program(buf), expected);
    }
}
