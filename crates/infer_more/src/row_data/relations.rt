//! Made by `tools/tables` from the definitions of the further rows, which the prover compares with them: the relations that
//! rows ask for, a few a list.
#![tactic(auto, unfolding(crate::specs::Listed::relations, crate::specs::Table::archives, crate::specs::Table::assorted, crate::specs::Table::bitmaps, crate::specs::Table::bundles, crate::specs::Table::buried, crate::specs::Table::captions, crate::specs::Table::chunks, crate::specs::Table::code, crate::specs::Table::compiled, crate::specs::Table::consoles, crate::specs::Table::databases, crate::specs::Table::deeper, crate::specs::Table::dialects, crate::specs::Table::disks, crate::specs::Table::documents, crate::specs::Table::elements, crate::specs::Table::farther, crate::specs::Table::further, crate::specs::Table::games, crate::specs::Table::headers, crate::specs::Table::headlines, crate::specs::Table::images, crate::specs::Table::inner, crate::specs::Table::keyrings, crate::specs::Table::kinds, crate::specs::Table::late, crate::specs::Table::letters, crate::specs::Table::markup, crate::specs::Table::measures, crate::specs::Table::media, crate::specs::Table::mended, crate::specs::Table::notations, crate::specs::Table::objects, crate::specs::Table::office, crate::specs::Table::openings, crate::specs::Table::others, crate::specs::Table::packages, crate::specs::Table::packed, crate::specs::Table::papers, crate::specs::Table::pictures, crate::specs::Table::prefaces, crate::specs::Table::prints, crate::specs::Table::rasters, crate::specs::Table::records, crate::specs::Table::remarks, crate::specs::Table::roots, crate::specs::Table::schemas, crate::specs::Table::science, crate::specs::Table::scores, crate::specs::Table::scripts, crate::specs::Table::secrets, crate::specs::Table::settings, crate::specs::Table::shallow, crate::specs::Table::shapes, crate::specs::Table::sounds, crate::specs::Table::squeezed, crate::specs::Table::stores, crate::specs::Table::texts, crate::specs::Table::tunes, crate::specs::Table::unheaded, crate::specs::Table::volumes))]

ghost use Rattle.std.specs.Prelude.{◌≡◌, ◌+◌, ◌<◌, ◌≤◌, IfSome, None};
ghost use Rattle.infer_more.specs.Listed.{AreRelations};

use infer_formats::relation::Relation;
use infer_formats::relation::Relation::{
    Animated, BehindId3, ClassId, Dbase, DirectoryTag, DirectoryTagAndMake, FirstEntryEndsIn,
    FirstEntryIs, FirstKey, FirstKeyWith, HasEntry, Header, JavaArchive, JsonLines, JsonText,
    PackageWith, PlainText, Program, Root, RootWith, SharedObject, SubRip, TarChecksum, TextFirst,
    TextFirstWith, TextFirstWithAll,
};

/// How many relations stand in a list, but perhaps the last.
const RELATIONS_OF_A_LIST: usize = 32;

/// How many relations there are.
const RELATION_COUNT: usize = 438;

static RELATIONS_FROM_0: &[Relation<'static>] = &[
    SharedObject,
    FirstEntryIs(b"AndroidManifest.xml"),
    FirstEntryIs(b"META-INF/com/android/build/gradle/app-metadata.properties"),
    FirstEntryEndsIn(b".kml"),
    JavaArchive,
    PackageWith(b"word/"),
    PackageWith(b"xl/"),
    PackageWith(b"ppt/"),
    PackageWith(b"visio/"),
    PackageWith(b"3D/"),
    ClassId(*b"\x84\x10\x0C\0\0\0\0\0\xC0\0\0\0\0\0\0F"),
    ClassId(*b"\x0B\r\x02\0\0\0\0\0\xC0\0\0\0\0\0\0F"),
    ClassId(*b"\x01\x12\x02\0\0\0\0\0\0\xC0\0\0\0\0\0F"),
    ClassId(*b"\x11\x1A\x02\0\0\0\0\0\xC0\0\0\0\0\0\0F"),
    ClassId(*b"\x14\x1A\x02\0\0\0\0\0\xC0\0\0\0\0\0\0F"),
    DirectoryTag(0xC612),
    Animated,
    Program(b"python"),
    Program(b"pypy"),
    Program(b"perl"),
    Program(b"ruby"),
    Program(b"jruby"),
    Program(b"node"),
    Program(b"nodejs"),
    Program(b"bun"),
    Program(b"deno"),
    Program(b"php"),
    Program(b"lua"),
    Program(b"luajit"),
    Program(b"awk"),
    Program(b"gawk"),
    Program(b"mawk"),
];

fn relations_from_0() -> &'static [Relation<'static>]
    ensures { AreRelations 0 result.now }
{
    RELATIONS_FROM_0
}

static RELATIONS_FROM_32: &[Relation<'static>] = &[
    Program(b"nawk"),
    Program(b"tclsh"),
    Program(b"wish"),
    Program(b"expect"),
    Root(b"svg"),
    Root(b"rss"),
    RootWith(b"RDF", b"http://purl.org/rss/1.0/"),
    RootWith(b"feed", b"http://www.w3.org/2005/Atom"),
    Root(b"kml"),
    Root(b"gpx"),
    RootWith(b"html", b"http://www.w3.org/1999/xhtml"),
    Root(b"plist"),
    Root(b"svg"),
    Root(b"svg"),
    SubRip,
    Dbase,
    TarChecksum,
    FirstEntryIs(b"index.apxl"),
    FirstEntryIs(b"pass.json"),
    FirstEntryEndsIn(b".fb2"),
    HasEntry(b"word/vbaProject.bin"),
    HasEntry(b"xl/vbaProject.bin"),
    HasEntry(b"xl/workbook.bin"),
    HasEntry(b"ppt/vbaProject.bin"),
    ClassId(*b"\xD1\xF9\x0C\xC2\xAE\x85\xD1\x11\xAA\xB4\0`\x97\xDAV\x1A"),
    Program(b"gjs"),
    Program(b"cjs"),
    Program(b"qjs"),
    Program(b"rhino"),
    Program(b"qml"),
    Program(b"qmlscene"),
    Program(b"escript"),
];

fn relations_from_32() -> &'static [Relation<'static>]
    ensures { AreRelations 32 result.now }
{
    RELATIONS_FROM_32
}

static RELATIONS_FROM_64: &[Relation<'static>] = &[
    Program(b"raku"),
    Program(b"rakudo"),
    Program(b"racket"),
    Program(b"sbcl"),
    Program(b"clisp"),
    Program(b"ecl"),
    Program(b"dart"),
    Program(b"nft"),
    Root(b"opml"),
    Root(b"FictionBook"),
    Root(b"interface"),
    Root(b"TS"),
    RootWith(b"Ontology", b"http://www.w3.org/2002/07/owl#"),
    RootWith(b"sparql", b"http://www.w3.org/2005/sparql-results#"),
    RootWith(b"metalink", b"urn:ietf:params:xml:ns:metalink"),
    Root(b"nzb"),
    Root(b"jnlp"),
    RootWith(b"shape", b"http://www.daa.com.au/~james/dia-shape-ns"),
    RootWith(b"document", b"application/vnd.oasis.opendocument.text"),
    Root(b"ttFont"),
    Root(b"xmpmeta"),
    RootWith(b"math", b"http://www.w3.org/1998/Math/MathML"),
    Root(b"SAMI"),
    Root(b"sami"),
    BehindId3(b"fLaC"),
    BehindId3(b"MAC "),
    BehindId3(b"TTA1"),
    BehindId3(b"MPCK"),
    BehindId3(b"MP+"),
    BehindId3(b"DSD "),
    Program(b"csh"),
    Program(b"tcsh"),
];

fn relations_from_64() -> &'static [Relation<'static>]
    ensures { AreRelations 64 result.now }
{
    RELATIONS_FROM_64
}

static RELATIONS_FROM_96: &[Relation<'static>] = &[
    Program(b"fish"),
    Program(b"Rscript"),
    Program(b"r"),
    Program(b"littler"),
    Program(b"guile"),
    Program(b"csi"),
    Program(b"scheme"),
    Program(b"gosh"),
    Program(b"clj"),
    Program(b"clojure"),
    Program(b"groovy"),
    Program(b"scala"),
    Program(b"ocaml"),
    Program(b"ocamlscript"),
    Program(b"utop"),
    Program(b"ocamlrun"),
    Program(b"runhaskell"),
    Program(b"runghc"),
    Program(b"stack"),
    Program(b"julia"),
    Program(b"octave"),
    Program(b"octave-cli"),
    Program(b"gnuplot"),
    Program(b"make"),
    Program(b"gmake"),
    Program(b"sed"),
    Program(b"gsed"),
    Program(b"stap"),
    Program(b"execlineb"),
    Program(b"texlua"),
    Program(b"luatex"),
    Program(b"pwsh"),
];

fn relations_from_96() -> &'static [Relation<'static>]
    ensures { AreRelations 96 result.now }
{
    RELATIONS_FROM_96
}

static RELATIONS_FROM_128: &[Relation<'static>] = &[
    Program(b"powershell"),
    Program(b"elixir"),
    FirstEntryIs(b"Index/Document.iwa"),
    FirstEntryIs(b"AppManifest.xaml"),
    FirstEntryIs(b"Document.xml"),
    FirstEntryEndsIn(b".mscx"),
    FirstEntryEndsIn(b".qgs"),
    ClassId(*b":\x8F\xB7t\xC8\xC8\xD1\x11\xBE\x11\0\xC0O\xB6\xFA\xF1"),
    ClassId(*b"\0gaVT\xC1\xCE\x11\x85S\0\xAA\0\xA1\xF9["),
    ClassId(*b"b\xFE.@\x99\x19\x1B\x10\x99\xAE\x04\x02\x1C\0p\x02"),
    RootWith(b"stylesheet", b"http://www.w3.org/1999/XSL/Transform"),
    RootWith(b"transform", b"http://www.w3.org/1999/XSL/Transform"),
    RootWith(b"schema", b"http://www.w3.org/2001/XMLSchema"),
    RootWith(b"grammar", b"http://relaxng.org/ns/structure/1.0"),
    RootWith(b"schema", b"http://purl.oclc.org/dsdl/schematron"),
    RootWith(b"definitions", b"http://schemas.xmlsoap.org/wsdl/"),
    RootWith(b"description", b"http://www.w3.org/ns/wsdl"),
    Root(b"COLLADA"),
    Root(b"X3D"),
    Root(b"amf"),
    RootWith(b"model", b"http://schemas.microsoft.com/3dmanufacturing"),
    Root(b"score-partwise"),
    Root(b"score-timewise"),
    Root(b"museScore"),
    Root(b"math"),
    RootWith(b"tt", b"http://www.w3.org/ns/ttml"),
    Root(b"xliff"),
    RootWith(b"book", b"http://docbook.org/ns/docbook"),
    RootWith(b"article", b"http://docbook.org/ns/docbook"),
    Root(b"refentry"),
    RootWith(b"chapter", b"http://docbook.org/ns/docbook"),
    RootWith(b"section", b"http://docbook.org/ns/docbook"),
];

fn relations_from_128() -> &'static [Relation<'static>]
    ensures { AreRelations 128 result.now }
{
    RELATIONS_FROM_128
}

static RELATIONS_FROM_160: &[Relation<'static>] = &[
    RootWith(b"set", b"http://docbook.org/ns/docbook"),
    RootWith(b"TEI", b"http://www.tei-c.org/ns/1.0"),
    RootWith(b"package", b"http://www.idpf.org/2007/opf"),
    Root(b"ncx"),
    RootWith(
        b"Project",
        b"http://schemas.microsoft.com/developer/msbuild/2003",
    ),
    RootWith(b"Project", b"Sdk="),
    RootWith(b"project", b"http://maven.apache.org/POM/4.0.0"),
    Root(b"glade-interface"),
    RootWith(b"ui", b"version="),
    RootWith(b"UI", b"version="),
    Root(b"busconfig"),
    RootWith(b"node", b"name="),
    Root(b"fontconfig"),
    Root(b"schemalist"),
    Root(b"gresources"),
    RootWith(b"component", b"type="),
    RootWith(
        b"mime-info",
        b"http://www.freedesktop.org/standards/shared-mime-info",
    ),
    Root(b"XMI"),
    RootWith(b"RDF", b"http://www.w3.org/1999/02/22-rdf-syntax-ns#"),
    RootWith(b"FeatureCollection", b"http://www.opengis.net/gml"),
    Root(b"osm"),
    RootWith(b"playlist", b"http://xspf.org/ns/0/"),
    Root(b"smil"),
    Root(b"MPD"),
    Root(b"metalink"),
    Root(b"xbel"),
    Root(b"abiword"),
    RootWith(b"diagram", b"http://www.lysator.liu.se/~alla/dia/"),
    RootWith(b"Workbook", b"http://www.gnumeric.org/v10.dtd"),
    RootWith(
        b"wordDocument",
        b"http://schemas.microsoft.com/office/word/2003/wordml",
    ),
    RootWith(
        b"document",
        b"application/vnd.oasis.opendocument.spreadsheet",
    ),
    RootWith(
        b"document",
        b"application/vnd.oasis.opendocument.presentation",
    ),
];

fn relations_from_160() -> &'static [Relation<'static>]
    ensures { AreRelations 160 result.now }
{
    RELATIONS_FROM_160
}

static RELATIONS_FROM_192: &[Relation<'static>] = &[
    RootWith(b"document", b"application/vnd.oasis.opendocument.graphics"),
    Root(b"gnc-v2"),
    Root(b"SCRIBUSUTF8NEW"),
    Root(b"xmpmeta"),
    Root(b"urlset"),
    Root(b"sitemapindex"),
    Root(b"sbml"),
    Root(b"cml"),
    RootWith(b"molecule", b"http://www.xml-cml.org/schema"),
    Root(b"audacityproject"),
    RootWith(b"project", b"http://audacity.sourceforge.net/xml/"),
    RootWith(b"document", b"com.apple.InterfaceBuilder3"),
    Root(b"catmetadata"),
    Root(b"pkgmetadata"),
    Root(b"xkbConfigRegistry"),
    Root(b"ldml"),
    Root(b"supplementalData"),
    RootWith(b"stylesheet", b"http://www.w3.org/1999/XSL/Transform"),
    RootWith(b"transform", b"http://www.w3.org/1999/XSL/Transform"),
    RootWith(b"schema", b"http://www.w3.org/2001/XMLSchema"),
    RootWith(
        b"Project",
        b"http://schemas.microsoft.com/developer/msbuild/2003",
    ),
    RootWith(b"Project", b"Sdk="),
    RootWith(b"project", b"http://maven.apache.org/POM/4.0.0"),
    RootWith(b"map", b"version="),
    Root(b"RCC"),
    Root(b"asx"),
    Root(b"ASX"),
    Root(b"Asx"),
    RootWith(b"node", b"name="),
    Root(b"busconfig"),
    Root(b"smil"),
    ClassId(*b"\x13\x1A\x02\0\0\0\0\0\xC0\0\0\0\0\0\0F"),
];

fn relations_from_192() -> &'static [Relation<'static>]
    ensures { AreRelations 192 result.now }
{
    RELATIONS_FROM_192
}

static RELATIONS_FROM_224: &[Relation<'static>] = &[
    Header(b"PE\0\0", 0x005C, 0x000A, 0x000D),
    Header(b"PE\0\0", 0x005C, 0x0001, 0x0001),
    Header(b"PE\0\0", 0x0016, 0x2000, 0x3FFF),
    Header(b"PE\0\0", 0x0016, 0xA000, 0xBFFF),
    Header(b"NE", 0x0001, 0x0145, 0xFF45),
    Header(b"LX", 0x0002, 0x0000, 0x0000),
    Header(b"LE", 0x0002, 0x0000, 0x0000),
    DirectoryTagAndMake(0x014A, b"NIKON\0COOLPIX"),
    DirectoryTagAndMake(0x014A, b"NIKON"),
    DirectoryTagAndMake(0x014A, b"SONY"),
    TextFirst(b"%YAML "),
    TextFirst(b"#%RAML "),
    TextFirst(b"[playlist]"),
    TextFirst(b"[Playlist]"),
    TextFirst(b"[PLAYLIST]"),
    TextFirstWith(b"[Reference]", b"Ref1="),
    TextFirstWith(b"[Address]", b"NSC Format"),
    TextFirst(b"[gd_scene "),
    TextFirst(b"[gd_resource "),
    TextFirst(b"(;FF["),
    TextFirst(b"(;GM["),
    TextFirstWith(b"PREFIX ", b"SELECT"),
    TextFirstWith(b"PREFIX ", b"CONSTRUCT"),
    TextFirstWith(b"PREFIX ", b"ASK"),
    TextFirst(b"#VRML V"),
    TextFirst(b"ISO-10303-21;"),
    TextFirstWith(b"; FBX ", b"FBXHeaderExtension"),
    TextFirstWith(b"solid", b"facet normal "),
    TextFirstWith(b"SOLID", b"FACET NORMAL "),
    TextFirst(b"#FIG 3."),
    TextFirst(b"#FIG 2."),
    TextFirst(b"#FIG 1."),
];

fn relations_from_224() -> &'static [Relation<'static>]
    ensures { AreRelations 224 result.now }
{
    RELATIONS_FROM_224
}

static RELATIONS_FROM_256: &[Relation<'static>] = &[
    TextFirst(b"##Sketch "),
    TextFirst(b"\\input texinfo"),
    TextFirstWith(b"This is ", b"produced by makeinfo"),
    TextFirst(b"#LyX "),
    TextFirst(b"<!DOCTYPE NETSCAPE-Bookmark-file-1>"),
    TextFirst(b"ID;P"),
    TextFirst(b"[Script Info]"),
    TextFirstWith(b"[INFORMATION]", b"[SUBTITLE]"),
    TextFirst(b"Scenarist_SCC V1.0"),
    TextFirst(b"@startuml"),
    TextFirst(b"Manifest-Version: 1"),
    TextFirst(b"Signature-Version: 1"),
    TextFirst(b"MIDlet-"),
    TextFirstWith(b"Format: http", b"copyright-format/1.0"),
    TextFirst(b"Metadata-Version: "),
    TextFirst(b"# data file for the Fltk"),
    TextFirst(b"xgcode 1.0"),
    TextFirst(b"[Pyspread save file version]"),
    TextFirst(b"BEGIN:VNOTE"),
    TextFirst(b"<?wpl "),
    TextFirst(b"/dts-v1/;"),
    TextFirst(b"RTSPtext"),
    TextFirst(b"rtsptext"),
    TextFirst(b"SMILtext"),
    TextFirst(b"push graphic-context"),
    TextFirst(b"#X3D V"),
    TextFirst(b"#usda 1"),
    TextFirst(b"%TGIF "),
    TextFirst(b"WINE REGISTRY Version "),
    TextFirst(b"# xmcd"),
    TextFirst(b"#EXTM4U"),
    TextFirst(b"{1}{"),
];

fn relations_from_256() -> &'static [Relation<'static>]
    ensures { AreRelations 256 result.now }
{
    RELATIONS_FROM_256
}

static RELATIONS_FROM_288: &[Relation<'static>] = &[
    TextFirst(b"{0}{"),
    TextFirst(b"[1]["),
    TextFirst(b"[0]["),
    TextFirst(b"#%Module"),
    TextFirst(b"//!Mup"),
    TextFirst(b"# PaCkAgE DaTaStReAm"),
    TextFirst(b"# abook addressbook file"),
    TextFirst(b"dnl "),
    TextFirst(b"# GIMP Curves File"),
    TextFirst(b"diff --git "),
    TextFirstWith(b"diff -", b"\n+++ "),
    TextFirstWith(b"diff -", b"\n< "),
    TextFirstWithAll(b"--- ", b"\n+++ ", b"\n@@ -", b""),
    TextFirstWithAll(b"Index: ", b"\n=======", b"\n+++ ", b""),
    TextFirstWithAll(b"*** ", b"\n--- ", b"\n***************", b""),
    TextFirstWith(b"From ", b"\nReceived: "),
    TextFirstWith(b"From ", b"\nFrom: "),
    TextFirstWith(b"From ", b"\nMessage-I"),
    TextFirst(b"Return-Path: <"),
    TextFirst(b"Return-path: <"),
    TextFirstWith(b"Delivered-To: ", b"\nReceived: "),
    TextFirst(b"Received: from "),
    TextFirst(b"Received: by "),
    TextFirst(b"Received: ("),
    TextFirstWith(b"MIME-Version: 1.0", b"\nContent-"),
    TextFirst(b"Message-ID: <"),
    TextFirstWithAll(b"From: ", b"\nDate: ", b"\nTo: ", b""),
    TextFirstWith(b"From: ", b"\nMIME-Version: 1.0"),
    TextFirst(b"X-Mozilla-Status: "),
    TextFirstWithAll(b"Date: ", b"\nFrom: ", b"\nTo: ", b""),
    TextFirstWithAll(b"Subject: ", b"\nFrom: ", b"\nTo: ", b""),
    TextFirstWith(b"Path: ", b"\nNewsgroups: "),
];

fn relations_from_288() -> &'static [Relation<'static>]
    ensures { AreRelations 288 result.now }
{
    RELATIONS_FROM_288
}

static RELATIONS_FROM_320: &[Relation<'static>] = &[
    TextFirstWith(b"Xref: ", b"\nNewsgroups: "),
    TextFirstWith(b"dn: ", b"\nobjectClass: "),
    TextFirstWith(b"dn: ", b"\nobjectclass: "),
    TextFirstWith(b"dn: ", b"\nchangetype: "),
    TextFirstWith(b"version: 1\n", b"\ndn: "),
    TextFirst(b"[Desktop Entry]\n"),
    TextFirst(b"[Desktop Entry]\r\n"),
    TextFirstWith(b"#", b"\n[Desktop Entry]\n"),
    TextFirst(b"\n[Desktop Entry]\n"),
    TextFirst(b"[KDE Desktop Entry]\n"),
    TextFirst(b"[Unit]\n"),
    TextFirstWith(b"#", b"\n[Unit]\n"),
    TextFirst(b"\n[Unit]\n"),
    TextFirst(b"[Socket]\n"),
    TextFirst(b"[Service]\n"),
    TextFirst(b"[Timer]\n"),
    TextFirst(b"[Mount]\n"),
    TextFirst(b"[D-BUS Service]\n"),
    TextFirstWith(b"#", b"\n[D-BUS Service]\n"),
    TextFirst(b"[Icon Theme]\n"),
    TextFirstWith(b"#", b"\n[Icon Theme]\n"),
    TextFirstWith(b"@prefix ", b"<"),
    TextFirst(b"@base <"),
    TextFirstWith(b"#", b"\n@prefix "),
    TextFirst(b"# .PCD v"),
    TextFirstWith(b"VERSION .", b"\nFIELDS "),
    TextFirst(b"AutoCAD Binary DXF\r\n"),
    TextFirst(b"0\nSECTION"),
    TextFirst(b"  0\nSECTION"),
    TextFirst(b"0\r\nSECTION"),
    TextFirst(b"  0\r\nSECTION"),
    TextFirstWith(b"999\n", b"\nSECTION"),
];

fn relations_from_320() -> &'static [Relation<'static>]
    ensures { AreRelations 320 result.now }
{
    RELATIONS_FROM_320
}

static RELATIONS_FROM_352: &[Relation<'static>] = &[
    TextFirstWith(b"999\r\n", b"SECTION"),
    TextFirstWithAll(b"#define ", b"_width ", b"_bits[]", b""),
    TextFirst(b"% This file was created with JabRef"),
    TextFirstWith(b"% Encoding: ", b"\n@"),
    TextFirst(b"@article{"),
    TextFirst(b"@book{"),
    TextFirst(b"@inproceedings{"),
    TextFirst(b"@misc{"),
    TextFirst(b"@Article{"),
    TextFirst(b"@ARTICLE{"),
    TextFirst(b"\\documentclass"),
    TextFirst(b"\\documentstyle"),
    TextFirstWith(b"%", b"\n\\documentclass"),
    TextFirstWith(b"%", b"\n\\NeedsTeXFormat"),
    TextFirstWith(b"%", b"\n\\ProvidesPackage"),
    TextFirstWith(b"[Version]", b"ignature"),
    TextFirstWithAll(b";", b"\n[Version]", b"ignature", b""),
    TextFirst(b"CD_ROM\n"),
    TextFirst(b"CD_DA\n"),
    TextFirst(b"CD_ROM_XA\n"),
    TextFirstWith(b"CATALOG \"", b"\nCD_"),
    TextFirstWith(b"FILE \"", b"TRACK "),
    TextFirstWith(b"PERFORMER \"", b"TRACK "),
    TextFirstWithAll(b"REM ", b"FILE \"", b"TRACK ", b""),
    TextFirstWith(b"TITLE \"", b"TRACK "),
    TextFirstWithAll(b"CATALOG ", b"FILE \"", b"TRACK ", b""),
    TextFirstWith(b"TITLE=", b"\nFORMAT="),
    TextFirst(b"FORMAT=TIME"),
    TextFirstWith(b"digraph ", b"{"),
    TextFirstWith(b"strict digraph ", b"{"),
    TextFirstWith(b"strict graph ", b"{"),
    TextFirstWithAll(b"graph ", b"{", b" -- ", b""),
];

fn relations_from_352() -> &'static [Relation<'static>]
    ensures { AreRelations 352 result.now }
{
    RELATIONS_FROM_352
}

static RELATIONS_FROM_384: &[Relation<'static>] = &[
    TextFirst(b"digraph{"),
    TextFirst(b"msgid \"\"\nmsgstr \""),
    TextFirstWith(b"#", b"\nmsgid \"\"\nmsgstr \"\"\n"),
    TextFirstWith(b"Summary: ", b"\n%description"),
    TextFirstWithAll(b"Name:", b"\nVersion:", b"\n%description", b""),
    TextFirstWith(b"%define ", b"\n%description"),
    TextFirstWith(b"%global ", b"\nName:"),
    TextFirstWithAll(b"#", b"\nName:", b"\n%description", b""),
    TextFirstWith(b"Format: 3.0 (", b"\nSource: "),
    TextFirst(b"Format: 1.0\nSource: "),
    TextFirstWithAll(b"Package: ", b"\nVersion: ", b"\nArchitecture: ", b""),
    TextFirstWithAll(b"Source: ", b"\nPackage: ", b"\nMaintainer: ", b""),
    TextFirstWithAll(b"prefix=", b"\nName: ", b"\nVersion:", b""),
    TextFirstWithAll(b"Name: ", b"\nDescription: ", b"\nLibs:", b""),
    TextFirstWith(b"# ", b" - a libtool library file\n"),
    TextFirstWith(b"[main]", b"\nAuthType="),
    TextFirst(b"\\version \""),
    TextFirstWith(b"%", b"\n\\version \""),
    TextFirstWithAll(b";;; ", b" --- ", b"\n;;; Code:", b""),
    TextFirstWith(b"FROM ", b"\nRUN "),
    TextFirst(b"# syntax=docker/dockerfile"),
    TextFirst(b"FROM scratch\n"),
    FirstKey(b"cells"),
    FirstKeyWith(b"type", b"FeatureCollection"),
    FirstKeyWith(b"type", b"Feature"),
    FirstKeyWith(b"type", b"Point"),
    FirstKeyWith(b"type", b"Polygon"),
    FirstKeyWith(b"type", b"LineString"),
    FirstKeyWith(b"type", b"MultiPolygon"),
    FirstKeyWith(b"type", b"GeometryCollection"),
    FirstKey(b"bomFormat"),
    FirstKey(b"asset"),
];

fn relations_from_384() -> &'static [Relation<'static>]
    ensures { AreRelations 384 result.now }
{
    RELATIONS_FROM_384
}

static RELATIONS_FROM_416: &[Relation<'static>] = &[
    FirstKeyWith(b"$schema", b"https://json-schema.org/draft/2020-12/schema"),
    FirstKeyWith(b"$schema", b"https://json-schema.org/draft/2019-09/schema"),
    FirstKeyWith(b"$schema", b"http://json-schema.org/draft-07/schema#"),
    FirstKeyWith(b"$schema", b"http://json-schema.org/draft-06/schema#"),
    FirstKeyWith(b"$schema", b"http://json-schema.org/draft-04/schema#"),
    FirstKeyWith(b"$schema", b"http://json-schema.org/draft-03/schema#"),
    FirstKeyWith(b"$schema", b"http://json-schema.org/schema#"),
    TextFirst(b"(21:protected-private-key"),
    TextFirst(b"(11:private-key"),
    TextFirstWith(b"Created: ", b"\nKey: ("),
    TextFirst(b"Key: ("),
    TextFirst(b"(20:shadowed-private-key"),
    TextFirst(b"AGE-SECRET-KEY-1"),
    TextFirstWith(b"# created: ", b"\nAGE-SECRET-KEY-1"),
    TextFirstWith(b"mtllib ", b"\nv "),
    TextFirstWithAll(b"#", b"\nmtllib ", b"\nv ", b""),
    TextFirstWithAll(b"#", b"\nv ", b"\nvn ", b"\nf "),
    TextFirst(b"newmtl "),
    TextFirstWith(b"#", b"\nnewmtl "),
    JsonLines,
    JsonText,
    PlainText,
];

fn relations_from_416() -> &'static [Relation<'static>]
    ensures { AreRelations 416 result.now }
{
    RELATIONS_FROM_416
}

/// The list in which the relation of that number stands, and the number of the relation with which it begins.
#[tactic(auto)]
pub(super) fn list_of(number: usize) -> Option<(usize, &'static [Relation<'static>])>
    ensures listed { IfSome result (λ list. (list.0 ≤ number)
        × (number < list.0 + RELATIONS_OF_A_LIST) × AreRelations list.0 list.1.now) }
    ensures all { result ≡ None → RELATION_COUNT ≤ number }
{
    match number / RELATIONS_OF_A_LIST {
        0 => Some((0, relations_from_0())),
        1 => Some((32, relations_from_32())),
        2 => Some((64, relations_from_64())),
        3 => Some((96, relations_from_96())),
        4 => Some((128, relations_from_128())),
        5 => Some((160, relations_from_160())),
        6 => Some((192, relations_from_192())),
        7 => Some((224, relations_from_224())),
        8 => Some((256, relations_from_256())),
        9 => Some((288, relations_from_288())),
        10 => Some((320, relations_from_320())),
        11 => Some((352, relations_from_352())),
        12 => Some((384, relations_from_384())),
        13 => Some((416, relations_from_416())),
        _ => None,
    }
}
